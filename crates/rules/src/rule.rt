// What makes a rule.
ghost use Rattle.std.specs.Prelude.{◌≡◌, ℕ, ◌<◌, ◌≤◌, length, IfOk, Some, None, Option as Maybe, MatchResult, slice_index};
ghost use Rattle.std.specs.Option.{option_map};
ghost use Rattle.model.specs.Sheets.{Sheet as Meant, count};
ghost use Rattle.model.specs.Rules.{Meaning, Proper, Refutes, NeverBefore};

use crate::evidence::Tells;
use model::limits::ROWS_MAX;
use sheet::sheets::Sheet;

// A rule means two functions of a sheet's meaning: evidence that it is overfull, or none, and the earliest start of each entry.
// Only what keeps both halves of the law is a rule. Asking it is never refused, needs no memory and changes nothing.
pub trait Rule {
    type Evidence: Tells + Drop;

    const LETTER: char;

    // the letter, the interval that the evidence tells, and the earliest starts
    ghost means: { Self → Meaning };

    // the evidence itself
    ghost shows: { Self → Meant → Maybe Self.Evidence };

    ghost proper: { (r : Self) → Proper (means r) };

    // the first half of the law: evidence only where there is no placement
    ghost refutes: { (r : Self) → Refutes (means r) };

    // the second half: where there is no evidence, no placement starts an entry before its earliest start
    ghost bounds: { (r : Self) → NeverBefore (means r) };

    // kept: a body here would have to know that the letter of every rule is its constant, which is asked of none.
    fn mark(&self) -> char
        ensures { result ≡ (means self.now).letter };

    fn evidence<S: Sheet>(&self, sheet: &S) -> Option<Self::Evidence>
        ensures value { result ≡ shows self.now (S.Sheet.meaning sheet.now) }
        ensures told { option_map Self.Evidence.Tells.told result ≡ (means self.now).evidence (S.Sheet.meaning sheet.now) };

    // The earliest start of the entry at a place, absent where the sheet has none there.
    fn earliest<S: Sheet>(&self, sheet: &S, place: usize) -> Option<u16>
        ensures { result ≡ (means self.now).earliest (S.Sheet.meaning sheet.now) place };

    // The earliest starts of all entries at once, at their places.
    // kept: an array by place, since E finds its starts out of order, so that a vector would first be filled with zeros and be no plainer.
    fn earliest_all<S: Sheet>(&self, sheet: &S) -> [u16; ROWS_MAX]
        ensures { (k : ℕ) → k < count (S.Sheet.meaning sheet.now) → (means self.now).earliest (S.Sheet.meaning sheet.now) k ≡ Some (slice_index result k) }
    {
        let mut starts = [0; ROWS_MAX];
        // by place, since a sheet is asked by place and lends no list
        for i in 0..sheet.count() {
            starts[i] = self.earliest(sheet, i).unwrap_or(0);
        }
        starts
    }

    // Evidence or, where there is none, the earliest starts of all entries: both questions in one, for a rule that answers them in one pass.
    fn judge<S: Sheet>(&self, sheet: &S) -> Result<[u16; ROWS_MAX], Self::Evidence>
        ensures value { MatchResult result (λ _. shows self.now (S.Sheet.meaning sheet.now) ≡ None) (λ v. shows self.now (S.Sheet.meaning sheet.now) ≡ Some v) }
        ensures told { MatchResult result (λ _. (means self.now).evidence (S.Sheet.meaning sheet.now) ≡ None) (λ v. (means self.now).evidence (S.Sheet.meaning sheet.now) ≡ Some (Self.Evidence.Tells.told v)) }
        ensures starts { IfOk result (λ starts. (k : ℕ) → k < count (S.Sheet.meaning sheet.now) → (means self.now).earliest (S.Sheet.meaning sheet.now) k ≡ Some (slice_index starts k)) }
    {
        // kept: evidence is the error here, and map_or_else with a closure for each case would be no plainer
        match self.evidence(sheet) {
            Some(evidence) => Err(evidence),
            None => Ok(self.earliest_all(sheet)),
        }
    }
}
