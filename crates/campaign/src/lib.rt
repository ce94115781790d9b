// Loads a campaign file into a board.
#![tactic(auto)]

mod entering;
pub mod faults;
mod loading;
pub mod outcomes;

pub use loading::load;
