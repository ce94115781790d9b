// Apply and sweep: rules narrow the windows of a board.
#![tactic(auto)]

pub mod applying;
mod changes;
mod figuring;
pub mod present;
pub mod presenting;
mod rounds;
pub mod sweeping;
mod writing;
