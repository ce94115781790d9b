// The side that intervals have in common: they begin at one slot, or they close at one slot.
ghost use Rattle.std.specs.Prelude.{◌≡◌, ℕ, ◌+◌, ◌-◌, ◌<◌, ◌≤◌, List, [], ◌∷◌};
ghost use Rattle.model.specs.declared.entries.Entry.{Entry as TheEntry};
ghost use Rattle.model.specs.declared.intervals.Interval.{Interval as TheInterval};
ghost use Rattle.model.specs.Sheets.{Sheet, count, entry, horizon};
ghost use Rattle.model.specs.Energy.{energy_of, StartPoint};
ghost use Rattle.shift.specs.Meaning.{from_start, to_end};
ghost use Rattle.shift_rule.specs.Ramps.{rise, Energies};
ghost use Rattle.shift_rule.specs.Found.{AllAccounted, TheEnd};
ghost use Rattle.shift_rule.specs.Passes.{sheet_in, Onward};

use crate::energies::{left_part, right_part};
use crate::pass::Pass;
use crate::ramps::{Ramp, Ramps};
use model::entries::Entry;

// A side that intervals can have in common, with what it makes of each entry.
pub(crate) trait Side {
    // whether t1 and t2 have the side
    ghost has: { Self → ℕ → ℕ → Type 0 };

    // what it makes with an entry
    ghost made: { Self → TheEntry → List TheInterval };

    // what a side has to be of a sheet, so that the intervals that it makes are candidates
    ghost fits: { Self → Sheet → Type 0 };

    // The ramp of an entry: its energies in the intervals that have the side.
    fn ramp(&self, e: Entry) -> Ramp
        requires { e.release + e.duration ≤ e.deadline }
        ensures demand { result.demand ≡ e.demand }
        ensures short { result.length ≤ e.duration }
        ensures energies { (t1 t2 : ℕ) → has self.now t1 t2 → t1 < t2 → rise result (t2 - t1) ≡ energy_of e t1 t2 };

    // Accounts for what the side makes with the entry at a place.
    fn account(&self, pass: &mut Pass, ramps: &Ramps, place: usize)
        requires fits { fits self.now (sheet_in pass.old) }
        requires energies { Energies (has self.now) (sheet_in pass.old) ramps.now.slopes }
        requires place { place < count (sheet_in pass.old) }
        ensures onward { Onward pass.old pass.new }
        ensures accounted { AllAccounted (sheet_in pass.old) pass.new.found (made self.now (entry (sheet_in pass.old) place)) };
}

// The partner of t1 in the window of an entry; slot 0 where it would lie before it.
// kept: an Option would be no plainer, since slot 0 is the end of no interval, and is passed by.
fn opposite(t1: u16, e: Entry) -> u16
    requires { (e.release ≤ horizon) × (e.deadline ≤ horizon) }
    ensures { result ≡ (e.release + e.deadline) - t1 }
{
    (e.release + e.deadline).saturating_sub(t1)
}

// The intervals that begin at a start point.
#[derive(Drop)]
pub struct Start {
    pub(crate) at: u16,
}

// The intervals that close at an end point, and how much slack moves no entry there.
#[derive(Drop)]
pub struct Close {
    pub(crate) at: u16,
    pub(crate) reach: u32,
}

impl Side for Start {
    ghost has = { λ side t1 t2. t1 ≡ side.at };

    ghost made = { λ side e. from_start side.at e };

    ghost fits = { λ side s. StartPoint s side.at };

    fn ramp(&self, e: Entry) -> Ramp {
        Ramp {
            offset: (e.deadline - e.duration).saturating_sub(self.at),
            length: left_part(e, self.at),
            demand: e.demand,
        }
    }

    // The intervals to each end point of the entry, and to the partner of the start in its window.
    fn account(&self, pass: &mut Pass, ramps: &Ramps, place: usize) {
        let t1 = self.at;
        let subject = pass.subject;
        let e = subject.movers.sheet.entries[place];
        let reach = subject.reaches[place];
        let early_end = e.release + e.duration;
        let late_start = e.deadline - e.duration;
        let last = opposite(t1, e);
        pass.visit(ramps, reach.deadline, t1, e.deadline);
        pass.visit_other(ramps, reach.early_end, t1, early_end, e.deadline);
        pass.visit(ramps, reach.late_start, t1, late_start);
        pass.visit(ramps, subject.most, t1, last);
    }
}

// The slot whose partner in the window of an entry is t2; t2 itself where it would lie before slot 0.
// kept: an Option would be no plainer, since no interval goes from t2 to itself, and it is passed by.
fn partner(t2: u16, e: Entry) -> u16
    requires { (e.release ≤ horizon) × (e.deadline ≤ horizon) }
    ensures { result ≡ (to_end t2 e).t1 }
{
    let both = e.release + e.deadline;
    if t2 <= both { both - t2 } else { t2 }
}

impl Side for Close {
    ghost has = { λ side t1 t2. t2 ≡ side.at };

    ghost made = { λ side e. to_end side.at e ∷ [] };

    ghost fits = { λ side s. TheEnd s side.at side.reach };

    fn ramp(&self, e: Entry) -> Ramp {
        Ramp {
            offset: self.at.saturating_sub(e.release + e.duration),
            length: right_part(e, self.at),
            demand: e.demand,
        }
    }

    // The interval from the partner of the end in the window of the entry.
    fn account(&self, pass: &mut Pass, ramps: &Ramps, place: usize) {
        let sheet = pass.subject.movers.sheet;
        let t1 = partner(self.at, sheet.entries[place]);
        pass.visit(ramps, self.reach, t1, self.at);
    }
}
