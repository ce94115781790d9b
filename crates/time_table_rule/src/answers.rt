// The answers of T, each from one usage line and its highest usage.
ghost use Rattle.std.specs.Prelude.{◌≡◌, ℕ, ◌<◌, Some as Found, slice_index};
ghost use Rattle.std.specs.Option.{option_map};
ghost use Rattle.model.specs.Sheets.{count};
ghost use Rattle.model.specs.Rules.{Named};
ghost use Rattle.model.specs.TimeTable.{Crowded};
ghost use Rattle.timetable.specs.Meaning.{meaning_T};
ghost use Rattle.sheet.specs.Listed.{meant};
ghost use Rattle.time_table_rule.specs.Shown.{told, Judged};

use crate::usage::{Usage, usage_line};
use model::limits::ROWS_MAX;
use rules::slots::Slot;
use sheet::lists::Listed;

// The first slot whose usage is above the capacity.
// kept: `judged(sheet).err()` would work out all starts where there is none.
pub(crate) fn crowded_slot(sheet: Listed<'_>) -> Option<Slot>
    ensures { Named (Crowded (meant sheet.entry)) (option_map told result) }
{
    let line = usage_line(sheet);
    Usage::of(sheet, &line).first_crowded()
}

// The earliest start of each entry, at its place.
// kept: the line is made anew in each of the three answers; a closure over it would be no plainer than the two lines.
pub(crate) fn earliest_starts(sheet: Listed<'_>) -> [u16; ROWS_MAX]
    ensures { (k : ℕ) → k < count (meant sheet.entry) → meaning_T.earliest (meant sheet.entry) k ≡ Found (slice_index result k) }
{
    let line = usage_line(sheet);
    Usage::of(sheet, &line).starts()
}

// The first crowded slot or, where there is none, the earliest starts of all entries.
pub(crate) fn judged(sheet: Listed<'_>) -> Result<[u16; ROWS_MAX], Slot>
    ensures { Judged (meant sheet.entry) result }
{
    let line = usage_line(sheet);
    let usage = Usage::of(sheet, &line);
    // kept: the slot is the error here, and map_or_else with a closure for each case would be no plainer
    match usage.first_crowded() {
        Some(slot) => Err(slot),
        None => Ok(usage.starts()),
    }
}
