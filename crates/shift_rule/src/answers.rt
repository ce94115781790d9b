// The answers of S, each from one pass over the candidates.
ghost use Rattle.std.specs.Prelude.{◌≡◌, ℕ, ◌<◌, Some, None, MatchResult, slice_index};
ghost use Rattle.model.specs.Sheets.{count};
ghost use Rattle.shift.specs.Meaning.{meaning_S};
ghost use Rattle.sheet.specs.Listed.{meant};

use crate::passes::survey;
use model::intervals::Interval;
use model::limits::ROWS_MAX;
use sheet::lists::Listed;

// The first candidate of negative slack or, where there is none, the earliest starts of all entries.
pub(crate) fn judged(sheet: Listed<'_>) -> Result<[u16; ROWS_MAX], Interval>
    ensures { MatchResult result (λ starts. (meaning_S.evidence (meant sheet.entry) ≡ None) × ((k : ℕ) → k < count (meant sheet.entry) → meaning_S.earliest (meant sheet.entry) k ≡ Some (slice_index starts k))) (λ i. meaning_S.evidence (meant sheet.entry) ≡ Some i) }
{
    let found = survey(sheet);
    // kept: what is found is the error here, and map_or_else with a closure for each case would be no plainer
    match found.first {
        Some(first) => Err(first),
        None => Ok(found.starts),
    }
}

// The earliest starts of all entries, at their places: where there is evidence, the releases.
pub(crate) fn earliest_starts(sheet: Listed<'_>) -> [u16; ROWS_MAX]
    ensures { (k : ℕ) → k < count (meant sheet.entry) → meaning_S.earliest (meant sheet.entry) k ≡ Some (slice_index result k) }
{
    // kept: E has the same four lines over an answer of its own, and one generic function would be no plainer;
    // tried with unwrap_or_else, and the proof did not close: that the answer is the releases stayed open where there is evidence
    match judged(sheet) {
        Ok(starts) => starts,
        Err(_) => sheet.releases(),
    }
}
