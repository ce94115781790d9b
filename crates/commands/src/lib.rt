// Commands of a console: which command a line of bytes says.
#![tactic(auto)]

pub mod commands;
pub mod reading;
mod taking;
pub mod words;
