// Plans a campaign file: the file is loaded and swept, and the report is written.
#![tactic(auto)]

mod plans;

pub use plans::plan;
