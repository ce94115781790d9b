// Apply by letter: T, E or S.
#![tactic(auto)]

pub mod lettered;
