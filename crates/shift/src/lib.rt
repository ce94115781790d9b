// S, the shift rule: it keeps the law of rules, and misses no interval of negative slack.
#![tactic(auto)]

ghost use Rattle.shift.specs.Theorems.{SKeepsTheLaw, SIsExact, LeastSlackIsAtACandidate, PartsAreClipped, QuotientsRoundUp};

// The computation of S is S, and whatever is S keeps the law of rules.
pub fn s_keeps_the_law()
    ensures { SKeepsTheLaw }
{}

// S has evidence exactly where some interval, candidate or not, has negative slack.
pub fn s_is_exact()
    ensures { SIsExact }
{}

// Where some slack is negative, the least slack is at a candidate.
pub fn least_slack_is_at_a_candidate()
    ensures { LeastSlackIsAtACandidate }
{}

// Cut-off subtraction gives the left and right parts of the integers, clipped at zero.
pub fn parts_are_clipped()
    ensures { PartsAreClipped }
{}

// The quotient by which an end is forced is the least that is enough.
pub fn quotients_round_up()
    ensures { QuotientsRoundUp }
{}
