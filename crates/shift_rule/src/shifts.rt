// S as a rule.
ghost use Rattle.shift.specs.Meaning.{meaning_S, first_negative};
ghost use Rattle.shift.proofs.RuleS.{is_S, lawful_S};

use crate::answers::{earliest_starts, judged};
use model::intervals::Interval;
use model::limits::ROWS_MAX;
use rules::rule::Rule;
use sheet::listing::list;
use sheet::sheets::Sheet;

// The shift rule. Its evidence is the first candidate of negative slack.
#[derive(Drop)]
pub struct Shift;

// kept: the calls of the three rules are one line each, and what is alike is the head of the trait; one function for all would be no plainer.
impl Rule for Shift {
    type Evidence = Interval;

    const LETTER: char = 'S';

    ghost means = { λ _. meaning_S };

    ghost shows = { λ _. first_negative };

    ghost proper = { λ _. (lawful_S meaning_S is_S).proper };

    ghost refutes = { λ _. (lawful_S meaning_S is_S).refutes };

    ghost bounds = { λ _. (lawful_S meaning_S is_S).never_before };

    fn mark(&self) -> char {
        Self::LETTER
    }

    fn evidence<S: Sheet>(&self, sheet: &S) -> Option<Interval> {
        self.judge(sheet).err()
    }

    fn earliest<S: Sheet>(&self, sheet: &S, place: usize) -> Option<u16> {
        (place < sheet.count()).then(|| self.earliest_all(sheet)[place])
    }

    fn earliest_all<S: Sheet>(&self, sheet: &S) -> [u16; ROWS_MAX] {
        earliest_starts(list(sheet).lend())
    }

    fn judge<S: Sheet>(&self, sheet: &S) -> Result<[u16; ROWS_MAX], Interval> {
        judged(list(sheet).lend())
    }
}
