// What a rule is: evidence or none, earliest starts, and the law that every rule keeps.
#![tactic(auto)]

pub mod evidence;
pub mod rule;
pub mod slots;
