// E, the elastic rule, run: one pass over the deadlines, from which the first overfull interval and the end to which full intervals
// push each entry follow.
#![tactic(auto)]

mod answers;
mod levels;
mod orders;
mod overfull;
mod passes;
mod pushes;
mod queues;
pub mod rule;
