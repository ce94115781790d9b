// What a pass is over.
ghost use Rattle.std.specs.Prelude.{◌≡◌, ℕ, ◌+◌, ◌≤◌};
ghost use Rattle.sheet.specs.Listed.{meant};
ghost use Rattle.shift_rule.specs.Leeways.{leeway as leeway_of, Enough, Known};

use crate::movers::{Movers, Reach};
use model::entries::Entry;
use model::limits::ROWS_MAX;
use sheet::lists::Listed;

// A sheet, the places of its entries that have a slot to spare, and how much slack moves none of them: at the end
// points of each entry, and anywhere.
#[derive(Drop)]
pub struct Subject<'a> {
    pub(crate) movers: Movers<'a>,
    // kept: an array by place, as the earliest starts of every rule are
    pub(crate) reaches: [Reach; ROWS_MAX],
    pub(crate) most: u32,
    ghost known: { Known (meant movers.sheet) reaches most },
}

// The leeway of an entry is nowhere greater than its demand in the slots that it has to spare, or in all that it runs.
fn widest(e: Entry) -> u32
    ensures { (t2 : ℕ) → leeway_of e t2 ≤ result }
{
    let early_end = u32::from(e.release) + u32::from(e.duration);
    let spare = u32::from(e.deadline).saturating_sub(early_end);
    u32::from(e.demand) * u32::from(e.duration).min(spare)
}

// As great a leeway as any entry has anywhere.
fn reach_anywhere(sheet: Listed<'_>) -> u32
    ensures { (t2 : ℕ) → Enough (meant sheet.entry) t2 result }
{
    sheet.entries.iter().map(|e| widest(*e)).max().unwrap_or(0)
}

impl<'a> Subject<'a> {
    // A sheet, with how far its entries can be moved.
    pub(crate) fn of(sheet: Listed<'a>) -> Self
        ensures { meant result.movers.sheet ≡ meant sheet.entry }
    {
        let movers = Movers::of(sheet);
        let reaches = movers.reaches();
        Subject {
            movers,
            reaches,
            most: reach_anywhere(sheet),
        }
    }
}
