// What one interval adds to what was found.
ghost use Rattle.std.specs.Prelude.{◌≡◌, ℕ, ◌+◌, ◌-◌, ◌*◌, ◌<◌, ◌≤◌, max, length, MatchBool, slice_index};
ghost use Rattle.model.specs.Sheets.{count, entry};
ghost use Rattle.model.specs.Energy.{IsInterval};
ghost use Rattle.shift_rule.specs.Forced.{start_after};
ghost use Rattle.sheet.specs.Listed.{meant};
ghost use Rattle.shift_rule.specs.Found.{Accounted};
ghost use Rattle.shift_rule.specs.Passes.{sheet_in, Told, Onward};
ghost use Rattle.shift.specs.Meaning.{sooner};

use crate::energies::forced_start;
use crate::movers::Movers;
use crate::pass::Pass;
use crate::ramps::Ramps;
use model::intervals::Interval;
use model::limits::SLOTS;

// The first, by start and then by end, of what was found and one interval more.
// kept: E has the like, over an answer of its own; one function for both lines would be no plainer.
fn sooner(found: Option<Interval>, here: Interval) -> Option<Interval>
    ensures { result ≡ sooner here found }
{
    Some(found.map_or(here, |before| before.min(here)))
}

// Raises each start to the one that an interval with this slack forces. Only an entry that has a slot to spare, and is released
// before the interval closes, can be forced to start after its release.
fn raise(movers: &Movers, t1: u16, t2: u16, slack: u32, starts: &mut [u16])
    requires places { count (meant movers.now.sheet) ≤ length starts.old }
    requires released { (k : ℕ) → k < count (meant movers.now.sheet) → (entry (meant movers.now.sheet) k).release ≤ slice_index starts.old k }
    ensures { (k : ℕ) → k < count (meant movers.now.sheet) → slice_index starts.new k ≡ max (slice_index starts.old k) (start_after (entry (meant movers.now.sheet) k) t1 t2 slack) }
{
    let entries = movers.sheet.entries;
    for &place in movers.places.as_slice() {
        let e = entries[place];
        if e.release < t2 {
            starts[place] = starts[place].max(forced_start(e, t1, t2, slack));
        }
    }
}

// kept: t2 and how much slack moves no entry there stay two parameters, since a type of both would hold a sheet too, and be asked that it
// is the pass's; the ends of an interval stay two, since `visit` is given ends that are none; and what the contracts share relates old and new.
impl<'s, 'a> Pass<'s, 'a> {
    // Accounts for a candidate by ramps that have its energies; `reach` is as much slack as moves no entry. It is apart from `visit`, which
    // passes most intervals by and is short enough to stand where it is called.
    #[inline(never)]
    fn weigh(&mut self, ramps: &Ramps, reach: u32, t1: u16, t2: u16)
        requires interval { IsInterval t1 t2 }
        requires known { Told (sheet_in self.old) ramps.now.slopes reach t1 t2 }
        ensures onward { Onward self.old self.new }
        ensures accounted { Accounted (sheet_in self.old) self.new.found t1 t2 }
    {
        let movers = &self.subject.movers;
        let room = u32::from(movers.sheet.capacity) * u32::from(t2 - t1);
        let energy = ramps.climbed(t2 - t1);
        if room < energy {
            self.found.first = sooner(self.found.first, Interval { t1, t2 });
        } else if room - energy < reach {
            raise(movers, t1, t2, room - energy, &mut self.found.starts);
        }
    }

    // Whether t1 and t2 are an interval, the slack of which can be less than `reach` as far as the top of the ramps tells.
    fn is_near(&self, ramps: &Ramps, reach: u32, t1: u16, t2: u16) -> bool
        ensures { MatchBool result (IsInterval t1 t2) (IsInterval t1 t2 → ramps.now.top + reach ≤ (sheet_in self.now).capacity * (t2 - t1)) }
    {
        if t1 >= t2 || t2 > SLOTS {
            return false;
        }
        let room = u32::from(self.subject.movers.sheet.capacity) * u32::from(t2 - t1);
        room < ramps.top || room - ramps.top < reach
    }

    // Accounts for t1 and t2, if they are an interval, by ramps that have its energies.
    #[inline(always)]
    pub(crate) fn visit(&mut self, ramps: &Ramps, reach: u32, t1: u16, t2: u16)
        requires { Told (sheet_in self.old) ramps.now.slopes reach t1 t2 }
        ensures onward { Onward self.old self.new }
        ensures accounted { Accounted (sheet_in self.old) self.new.found t1 t2 }
    {
        if self.is_near(ramps, reach, t1, t2) {
            self.weigh(ramps, reach, t1, t2);
        }
    }

    // Accounts for t1 and t2, unless they are an interval that is accounted for.
    pub(crate) fn visit_other(&mut self, ramps: &Ramps, reach: u32, t1: u16, t2: u16, seen: u16)
        requires known { Told (sheet_in self.old) ramps.now.slopes reach t1 t2 }
        requires seen { Accounted (sheet_in self.old) self.old.found t1 seen }
        ensures onward { Onward self.old self.new }
        ensures accounted { Accounted (sheet_in self.old) self.new.found t1 t2 }
    {
        if t2 != seen {
            self.visit(ramps, reach, t1, t2);
        }
    }
}
