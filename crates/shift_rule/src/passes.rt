// Passes over the candidates of a sheet.
ghost use Rattle.std.specs.Prelude.{ℕ, ◌<◌};
ghost use Rattle.model.specs.Sheets.{count, entry};
ghost use Rattle.model.specs.Energy.{StartPoint};
ghost use Rattle.sheet.specs.Listed.{meant};
ghost use Rattle.shift_rule.specs.Found.{Right, AllAccounted, AccountedFrom, AccountedTo, AccountedAround, TheEnd};
ghost use Rattle.shift_rule.specs.Passes.{sheet_in, Onward};

use crate::pass::{Pass, Survey};
use crate::ramps::Ramps;
use crate::sides::{Close, Side, Start};
use crate::slots::Slots;
use crate::subjects::Subject;
use sheet::lists::Listed;

impl<'s, 'a> Pass<'s, 'a> {
    // Accounts for all that a side makes with the entries.
    fn along<S: Side>(&mut self, side: &S)
        requires { S.fits side.now (sheet_in self.old) }
        ensures onward { Onward self.old self.new }
        ensures accounted { (j : ℕ) → j < count (sheet_in self.old) → AllAccounted (sheet_in self.old) self.new.found (S.made side.now (entry (sheet_in self.old) j)) }
    {
        let sheet = self.subject.movers.sheet;
        let ramps = Ramps::of(sheet, side);
        // by place, which is what a side is given
        for place in 0..sheet.entries.len() {
            side.account(self, &ramps, place);
        }
    }

    // Accounts for the candidates of the first two kinds that begin at a start point, unless it has been gone through.
    // kept: one function for this and `close` would have to be told of the side, its set and what it accounts for, which is no plainer.
    fn begin(&mut self, t1: u16)
        requires { StartPoint (sheet_in self.old) t1 }
        ensures onward { Onward self.old self.new }
        ensures accounted { AccountedFrom (sheet_in self.old) self.new.found t1 }
    {
        if !self.begun.has(t1) {
            self.along(&Start { at: t1 });
            self.begun.add(t1);
        }
    }

    // Accounts for the candidates of the third kind that close at an end point, unless it has been gone through.
    fn close(&mut self, reach: u32, t2: u16)
        requires { TheEnd (sheet_in self.old) t2 reach }
        ensures onward { Onward self.old self.new }
        ensures accounted { AccountedTo (sheet_in self.old) self.new.found t2 }
    {
        if !self.closed.has(t2) {
            self.along(&Close { at: t2, reach });
            self.closed.add(t2);
        }
    }

    // Accounts for all candidates that begin or close at a point of the entry at a place.
    fn around(&mut self, place: usize)
        requires { place < count (sheet_in self.old) }
        ensures onward { Onward self.old self.new }
        ensures accounted { AccountedAround (sheet_in self.old) self.new.found place }
    {
        let subject = self.subject;
        let e = subject.movers.sheet.entries[place];
        let reach = subject.reaches[place];
        let early_end = e.release + e.duration;
        let late_start = e.deadline - e.duration;
        self.begin(e.release);
        self.begin(late_start);
        self.begin(early_end);
        self.close(reach.deadline, e.deadline);
        self.close(reach.early_end, early_end);
        self.close(reach.late_start, late_start);
    }
}

// One pass over all candidates of what is known.
fn go_through(subject: &Subject) -> Survey
    ensures right { ∥ Right (meant subject.now.movers.sheet) result ∥₁ }
    ensures accounted { (i : ℕ) → i < count (meant subject.now.movers.sheet) → AccountedAround (meant subject.now.movers.sheet) result i }
{
    let sheet = subject.movers.sheet;
    let mut pass = Pass {
        subject,
        found: Survey {
            first: None,
            starts: sheet.releases(),
        },
        begun: Slots::none(),
        closed: Slots::none(),
    };
    // by place, which is what a step of the pass is given
    for place in 0..sheet.entries.len() {
        pass.around(place);
    }
    pass.found
}

// One pass over all candidates.
pub(crate) fn survey(sheet: Listed<'_>) -> Survey
    ensures right { ∥ Right (meant sheet.entry) result ∥₁ }
    ensures accounted { (i : ℕ) → i < count (meant sheet.entry) → AccountedAround (meant sheet.entry) result i }
{
    go_through(&Subject::of(sheet))
}
