// T, the time table rule, run: the usage of every slot by fixed parts, from which the first crowded slot and the first room of each entry follow.
#![tactic(auto)]

mod answers;
mod crowded;
pub mod rule;
mod starts;
mod usage;
