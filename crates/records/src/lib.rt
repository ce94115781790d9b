// Reads the numbers and records of a campaign file.
#![tactic(auto)]

pub mod faults;
pub mod figures;
mod numbers;
pub mod reader;
mod reading;
pub mod records;
mod taking;
