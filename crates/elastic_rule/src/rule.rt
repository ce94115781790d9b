// E as a rule.
ghost use Rattle.elastic.specs.Meaning.{meaning_E, evidence_E};
ghost use Rattle.elastic.proofs.IsE.{is_E};
ghost use Rattle.elastic.proofs.Law.{lawful_E};

use crate::answers::{earliest_starts, judged};
use model::intervals::Interval;
use model::limits::ROWS_MAX;
use rules::rule::Rule;
use sheet::listing::list;
use sheet::sheets::Sheet;

// The elastic rule. Its evidence is the first interval whose inner entries have more work than there is room.
#[derive(Drop)]
pub struct Elastic;

// kept: the calls of the three rules are one line each, and what is alike is the head of the trait; one function for all would be no plainer.
impl Rule for Elastic {
    type Evidence = Interval;

    const LETTER: char = 'E';

    ghost means = { λ _. meaning_E };

    ghost shows = { λ _ s. evidence_E s };

    ghost proper = { λ _. (lawful_E meaning_E is_E).proper };

    ghost refutes = { λ _. (lawful_E meaning_E is_E).refutes };

    ghost bounds = { λ _. (lawful_E meaning_E is_E).never_before };

    fn mark(&self) -> char {
        Self::LETTER
    }

    fn evidence<S: Sheet>(&self, sheet: &S) -> Option<Interval> {
        self.judge(sheet).err()
    }

    fn earliest<S: Sheet>(&self, sheet: &S, place: usize) -> Option<u16> {
        (place < sheet.count()).then(|| self.earliest_all(sheet)[place])
    }

    fn earliest_all<S: Sheet>(&self, sheet: &S) -> [u16; ROWS_MAX] {
        earliest_starts(list(sheet).lend())
    }

    fn judge<S: Sheet>(&self, sheet: &S) -> Result<[u16; ROWS_MAX], Interval> {
        judged(list(sheet).lend())
    }
}
