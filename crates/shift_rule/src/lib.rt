// S, the shift rule, run: one energy sum for each candidate, from which evidence and every earliest start follow.
#![tactic(auto)]

mod answers;
mod energies;
mod movers;
mod pass;
mod passes;
mod ramps;
pub mod shifts;
mod sides;
mod slots;
mod subjects;
mod visits;
