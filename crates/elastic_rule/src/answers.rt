// The answers of E, all from one pass over the deadlines.
ghost use Rattle.std.specs.Prelude.{◌≡◌, ℕ, ◌<◌, Some as Found, slice_index};
ghost use Rattle.model.specs.Sheets.{count};
ghost use Rattle.elastic.specs.Meaning.{meaning_E};
ghost use Rattle.sheet.specs.Listed.{meant};
ghost use Rattle.elastic_rule.specs.Judged.{Judged};

use crate::orders::Order;
use crate::queues::Queue;
use model::intervals::Interval;
use model::limits::ROWS_MAX;
use sheet::lists::Listed;

// The first overfull interval or, where there is none, the earliest starts of all entries.
pub(crate) fn judged(sheet: Listed<'_>) -> Result<[u16; ROWS_MAX], Interval>
    ensures { Judged (meant sheet.entry) result }
{
    let order = Order::of(sheet);
    let rows = order.arranged();
    let queue = Queue {
        sheet: Listed {
            capacity: sheet.capacity,
            entries: rows.as_slice(),
        },
    };
    let found = queue.whole_pass();
    // kept: what is found is the error here, and map_or_else with a closure for each case would be no plainer
    match found.first {
        Some(first) => Err(first),
        None => Ok(order.starts(&found.ends)),
    }
}

// The earliest start of each entry, at its place: where something is overfull, its release.
pub(crate) fn earliest_starts(sheet: Listed<'_>) -> [u16; ROWS_MAX]
    ensures { (k : ℕ) → k < count (meant sheet.entry) → meaning_E.earliest (meant sheet.entry) k ≡ Found (slice_index result k) }
{
    // kept: S has the same four lines over an answer of its own, and one generic function would be no plainer;
    // tried with unwrap_or_else, and the proof did not close: that the answer is the releases stayed open where something is overfull
    match judged(sheet) {
        Ok(starts) => starts,
        Err(_) => sheet.releases(),
    }
}
