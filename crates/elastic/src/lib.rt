// E, the elastic rule: what it means, and what is proved of it and of elastic schedules.
#![tactic(auto)]

ghost use Rattle.elastic.specs.Pushes.{PushesGiveTheSmallestDeadline};
ghost use Rattle.elastic.specs.Theorems.{EFindsTheSmallestDeadline, EIsExact, EKeepsTheLaw, MirrorsKeep, PlacementsAreElastic, SettledWindowsAreTight, SomeFitAndSomeDoNot};

// Every placement is an elastic schedule.
pub fn placements_are_elastic()
    ensures { PlacementsAreElastic }
{}

// The mirror of a sheet has its placements and elastic schedules, read backwards; mirroring twice changes nothing.
pub fn mirrors_keep_placements_and_schedules()
    ensures { MirrorsKeep }
{}

// The definition of E that computes is E, and whatever is E keeps the law of rules.
pub fn e_keeps_the_law()
    ensures { EKeepsTheLaw }
{}

// E has evidence exactly for the sheets without an elastic schedule.
pub fn e_is_exact()
    ensures { EIsExact }
{}

// Some elastic schedule ends an entry by its smallest deadline, none by a smaller one, and a later one leaves room too.
pub fn e_finds_the_smallest_deadline()
    ensures { EFindsTheSmallestDeadline }
{}

// The smallest deadline of an entry is the end to which full intervals push it, so that one pass over the deadlines finds it.
pub fn pushes_give_the_smallest_deadline()
    ensures { PushesGiveTheSmallestDeadline }
{}

// Where E has nothing to say on a sheet and on its mirror, elastic schedules reach both ends of every window.
pub fn settled_windows_are_tight()
    ensures { SettledWindowsAreTight }
{}

// There are sheets with a placement, with an elastic schedule only, and with neither.
pub fn some_sheets_fit_and_some_do_not()
    ensures { SomeFitAndSomeDoNot }
{}
