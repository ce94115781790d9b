// T, the time table rule: it keeps the law of rules.
#![tactic(auto)]

ghost use Rattle.timetable.specs.Theorems.{TKeepsTheLaw};

// The computation of T is T, and whatever is T keeps the law of rules.
pub fn t_keeps_the_law()
    ensures { TKeepsTheLaw }
{}
