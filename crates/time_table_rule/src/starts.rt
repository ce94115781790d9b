// The first room of each entry.
ghost use Rattle.std.specs.Prelude.{◌≡◌, ℕ, ◌+◌, ◌-◌, ◌<◌, ◌≤◌, ◌⊎◌, Some as Found, slice_index};
ghost use Rattle.model.specs.Sheets.{count};
ghost use Rattle.model.specs.TimeTable.{fixed_at, FirstRoom, NoRoom};
ghost use Rattle.timetable.specs.Meaning.{meaning_T};
ghost use Rattle.sheet.specs.Listed.{meant};

use crate::usage::Usage;
use model::entries::Entry;
use model::limits::ROWS_MAX;

// What slot t holds where an entry runs in it beside the fixed parts of the others: in its own fixed part it is counted already.
// kept: tried as a method of Usage that reads the entry and the line itself, and it misses the bar of speed: the rule takes 1.3 times as long.
fn beside(e: Entry, t: u16, usage: u32) -> u32
    requires { (e.release + e.duration ≤ e.deadline) × ((fixed_at t e ≤ usage) × (usage + e.demand < 4294967296)) }
    ensures { result ≡ (usage - fixed_at t e) + e.demand }
{
    if t >= e.deadline - e.duration && t < e.release + e.duration {
        usage
    } else {
        usage + u32::from(e.demand)
    }
}

impl<'a> Usage<'a> {
    // The smallest start with room for the entry at a place; where none has room, the one past its last start.
    // A slot without room moves the start past it, so that the window is gone through once.
    // kept: an Option would be no plainer, since the start past the last one is what the rule answers where none has room.
    fn first_room(&self, place: usize) -> u16
        requires { place < count (meant self.now.sheet) }
        ensures { FirstRoom (meant self.now.sheet) place result ⊎ NoRoom (meant self.now.sheet) place result }
    {
        let e = self.sheet.entries[place];
        let last = e.deadline - e.duration;
        let mut from = e.release;
        // kept: the slot's number decides as much as its usage does, so this goes through the slots, and not through a part of the line beside them
        for t in e.release..e.deadline {
            if t >= from + e.duration {
                return from;
            }
            if beside(e, t, self.line[usize::from(t)]) > u32::from(self.sheet.capacity) {
                if t >= last {
                    return last + 1;
                }
                from = t + 1;
            }
        }
        from
    }

    // The same, where the highest usage may leave room for the entry: then there is nothing to look for.
    fn start(&self, place: usize) -> u16
        requires { place < count (meant self.now.sheet) }
        ensures { FirstRoom (meant self.now.sheet) place result ⊎ NoRoom (meant self.now.sheet) place result }
    {
        let e = self.sheet.entries[place];
        if self.peak <= u32::from(self.sheet.capacity - e.demand) {
            e.release
        } else {
            self.first_room(place)
        }
    }

    // The earliest start of each entry, at its place.
    pub(crate) fn starts(&self) -> [u16; ROWS_MAX]
        ensures { (k : ℕ) → k < count (meant self.now.sheet) → meaning_T.earliest (meant self.now.sheet) k ≡ Found (slice_index result k) }
    {
        // kept: an array by place, as the earliest starts of every rule are
        let mut starts = [0; ROWS_MAX];
        // by place, which is what a start is asked by
        for place in 0..self.sheet.entries.len() {
            starts[place] = self.start(place);
        }
        starts
    }
}
