// T as a rule.
ghost use Rattle.timetable.specs.Meaning.{meaning_T};
ghost use Rattle.timetable.proofs.RuleT.{is_T, lawful_T};
ghost use Rattle.time_table_rule.specs.Shown.{shown};

use crate::answers::{crowded_slot, earliest_starts, judged};
use model::limits::ROWS_MAX;
use rules::rule::Rule;
use rules::slots::Slot;
use sheet::listing::list;
use sheet::sheets::Sheet;

// The time table rule. Its evidence is the first slot in which the fixed parts use more than the capacity.
#[derive(Drop)]
pub struct TimeTable;

// kept: the calls of the three rules are one line each, and what is alike is the head of the trait; one function for all would be no plainer.
impl Rule for TimeTable {
    type Evidence = Slot;

    const LETTER: char = 'T';

    ghost means = { λ _. meaning_T };

    ghost shows = { λ _ s. shown (meaning_T.evidence s) };

    ghost proper = { λ _. (lawful_T meaning_T is_T).proper };

    ghost refutes = { λ _. (lawful_T meaning_T is_T).refutes };

    ghost bounds = { λ _. (lawful_T meaning_T is_T).never_before };

    fn mark(&self) -> char {
        Self::LETTER
    }

    fn evidence<S: Sheet>(&self, sheet: &S) -> Option<Slot> {
        crowded_slot(list(sheet).lend())
    }

    fn earliest<S: Sheet>(&self, sheet: &S, place: usize) -> Option<u16> {
        (place < sheet.count()).then(|| self.earliest_all(sheet)[place])
    }

    fn earliest_all<S: Sheet>(&self, sheet: &S) -> [u16; ROWS_MAX] {
        earliest_starts(list(sheet).lend())
    }

    fn judge<S: Sheet>(&self, sheet: &S) -> Result<[u16; ROWS_MAX], Slot> {
        judged(list(sheet).lend())
    }
}
