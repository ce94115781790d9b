// How far the entries of a sheet can be moved.
ghost use Rattle.std.specs.Prelude.{◌≡◌, ℕ, ◌+◌, ◌<◌, ◌≤◌, length, slice_index_or};
ghost use Rattle.model.specs.Sheets.{count, entry, rows_max};
ghost use Rattle.sheet.specs.Listed.{meant};
ghost use Rattle.shift_rule.specs.Leeways.{leeway as leeway_of, Enough, EnoughAround, ListsMovers, no_reach};

use crate::energies::right_part;
use arrayvec::ArrayVec;
use model::entries::Entry;
use model::limits::ROWS_MAX;
use sheet::lists::Listed;

// How much slack moves no entry, in an interval that closes at the deadline, the early end or the late start of an entry.
#[derive(Clone, Copy, Default)]
pub struct Reach {
    pub(crate) deadline: u32,
    pub(crate) early_end: u32,
    pub(crate) late_start: u32,
}

// A sheet, and the places of its entries that have a slot to spare.
#[derive(Drop)]
pub struct Movers<'a> {
    pub(crate) sheet: Listed<'a>,
    pub(crate) places: ArrayVec<usize, ROWS_MAX>,
    ghost listed: { ListsMovers (meant sheet) places.items },
}

// The leeway of an entry at t2.
fn leeway(e: Entry, t2: u16) -> u32
    requires { e.release + e.duration ≤ e.deadline }
    ensures { result ≡ leeway_of e t2 }
{
    let after_late = e.duration - right_part(e, t2);
    let after_early = (e.release + e.duration).saturating_sub(t2);
    u32::from(e.demand) * u32::from(after_late.saturating_sub(after_early))
}

impl<'a> Movers<'a> {
    // The entries of a sheet that have a slot to spare.
    pub(crate) fn of(sheet: Listed<'a>) -> Self
        ensures { result.sheet ≡ sheet.entry }
    {
        // kept: collecting into a vector of a fixed capacity answers a Result, though there is room for all, so that it is no plainer
        let mut places = ArrayVec::new();
        for (place, e) in sheet.entries.iter().enumerate() {
            if e.release + e.duration < e.deadline {
                places.push(place);
            }
        }
        Movers { sheet, places }
    }

    // The greatest leeway at t2. An entry without a slot to spare has none.
    fn reach_at(&self, t2: u16) -> u32
        ensures { Enough (meant self.now.sheet) t2 result }
    {
        // kept: tried as a chain of map and max, and it stayed open that each place that the closure is given lies in the sheet
        let mut most = 0;
        for place in self.places.as_slice() {
            most = leeway(self.sheet.entries[*place], t2).max(most);
        }
        most
    }

    // The greatest leeway at each end point of an entry.
    fn reach_around(&self, e: Entry) -> Reach
        requires { e.release + e.duration ≤ e.deadline }
        ensures { EnoughAround (meant self.now.sheet) e result }
    {
        Reach {
            deadline: self.reach_at(e.deadline),
            early_end: self.reach_at(e.release + e.duration),
            late_start: self.reach_at(e.deadline - e.duration),
        }
    }

    // The greatest leeways at the end points of all entries, at their places.
    pub(crate) fn reaches(&self) -> [Reach; ROWS_MAX]
        ensures places { length result ≡ rows_max }
        ensures each { (k : ℕ) → k < count (meant self.now.sheet) → EnoughAround (meant self.now.sheet) (entry (meant self.now.sheet) k) (slice_index_or result k no_reach) }
    {
        // kept: an array by place, as the earliest starts of every rule are
        let mut reaches = [Reach::default(); ROWS_MAX];
        for (place, e) in self.sheet.entries.iter().enumerate() {
            reaches[place] = self.reach_around(*e);
        }
        reaches
    }
}
