// How far full intervals push the entries.
ghost use Rattle.std.specs.Prelude.{◌≡◌, ℕ, ◌+◌, ◌<◌, slice_index};
ghost use Rattle.model.specs.Sheets.{count, entry};
ghost use Rattle.elastic.specs.Pushes.{Fullest, PushedBy};
ghost use Rattle.sheet.specs.Listed.{meant};

use crate::queues::Queue;
use model::limits::ROWS_MAX;

impl<'a> Queue<'a> {
    // The end of the entry at place k once the deadline at place j pushes it too. Where what is filled up to that deadline leaves
    // no room for the work of the entry, the two take all slots up to the end.
    pub(crate) fn pushed(&self, k: usize, j: usize, level: u32, end: u32) -> u32
        requires { (k < count (meant self.now.sheet)) × ((j < count (meant self.now.sheet)) × ((Fullest (meant self.now.sheet) (entry (meant self.now.sheet) k).release (entry (meant self.now.sheet) j).deadline (count (meant self.now.sheet)) level) × (PushedBy (meant self.now.sheet) k j end))) }
        ensures { PushedBy (meant self.now.sheet) k (j + 1) result }
    {
        let e = self.sheet.entries[k];
        let deadline = self.sheet.entries[j].deadline;
        if deadline >= e.deadline {
            return end;
        }
        let capacity = u32::from(self.sheet.capacity);
        let total = level + u32::from(e.duration) * u32::from(e.demand);
        if total <= capacity * u32::from(deadline) {
            return end;
        }
        end.max(total.div_ceil(capacity))
    }

    // The end of each entry that nothing pushes, at its place.
    pub(crate) fn soonest_ends(&self) -> [u32; ROWS_MAX]
        ensures { (k : ℕ) → k < count (meant self.now.sheet) → slice_index result k ≡ (entry (meant self.now.sheet) k).release + (entry (meant self.now.sheet) k).duration }
    {
        // kept: an array by place, as the earliest starts of every rule are
        let mut ends = [0; ROWS_MAX];
        for (place, e) in self.sheet.entries.iter().enumerate() {
            ends[place] = u32::from(e.release) + u32::from(e.duration);
        }
        ends
    }
}
