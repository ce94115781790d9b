// The energy of an entry in an interval, and the start that an interval forces on it.
ghost use Rattle.std.specs.Prelude.{◌≡◌, ◌+◌, ◌≤◌};
ghost use Rattle.model.specs.Energy.{left_part, right_part, energy_of, ceiling};
ghost use Rattle.shift_rule.specs.Forced.{lack_beside, start_after};

use model::entries::Entry;

// The slots that an entry runs from t1 on where it starts as early as it can.
pub(crate) fn left_part(e: Entry, t1: u16) -> u16
    ensures { result ≡ left_part e t1 }
{
    e.duration.saturating_sub(t1.saturating_sub(e.release))
}

// The slots that an entry runs before t2 where it ends as late as it can.
pub(crate) fn right_part(e: Entry, t2: u16) -> u16
    ensures { result ≡ right_part e t2 }
{
    e.duration.saturating_sub(e.deadline.saturating_sub(t2))
}

// The energy of an entry in the slots from t1 to before t2.
fn energy_of(e: Entry, t1: u16, t2: u16) -> u32
    ensures { result ≡ energy_of e t1 t2 }
{
    let length = t2.saturating_sub(t1);
    let left = left_part(e, t1);
    let right = right_part(e, t2);
    let held = length.min(left).min(right);
    u32::from(e.demand) * u32::from(held)
}

// kept: the ends of an interval and its slack stay numbers, as `visit` is given them, since a type for them here would be no plainer.

// What an interval with this slack lacks where the entry starts as early as it can.
fn lack_beside(e: Entry, t1: u16, t2: u16, slack: u32) -> u32
    ensures { result ≡ lack_beside e t1 t2 slack }
{
    let early = t2.saturating_sub(t1).min(left_part(e, t1));
    (u32::from(e.demand) * u32::from(early) - energy_of(e, t1, t2)).saturating_sub(slack)
}

// The quotient rounded up.
fn rounded_up(x: u32, c: u32) -> u32
    requires { (1 ≤ c) × (x + c ≤ 4294967295) }
    ensures { result ≡ ceiling x c }
{
    x.div_ceil(c)
}

// The start that an interval with this slack forces on an entry, and 0 where it forces none.
// kept: an Option would be no plainer, since the greatest is taken of all such starts, and 0 is the least of them.
pub(crate) fn forced_start(e: Entry, t1: u16, t2: u16, slack: u32) -> u16
    requires { 1 ≤ e.demand }
    ensures { result ≡ start_after e t1 t2 slack }
{
    if t2 >= e.deadline {
        return 0;
    }
    let lack = lack_beside(e, t1, t2, slack);
    if lack == 0 {
        return 0;
    }
    // The end lies within the deadline, so that it fits; `try_from` would add a branch that is never taken.
    let end = u32::from(t2) + rounded_up(lack, u32::from(e.demand));
    (end as u16).saturating_sub(e.duration)
}
