// What a rule may ask: a capacity and entries, mirrored or with one deadline cut.
#![tactic(auto)]

pub mod cuts;
pub mod listing;
pub mod lists;
pub mod mirrors;
pub mod sheets;
