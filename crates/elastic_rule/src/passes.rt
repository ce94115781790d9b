// One pass over the deadlines.
ghost use Rattle.std.specs.Prelude.{◌+◌, ◌<◌};
ghost use Rattle.model.specs.Sheets.{count};
ghost use Rattle.sheet.specs.Listed.{meant};
ghost use Rattle.elastic_rule.specs.Passes.{Passed};

use crate::queues::Queue;
use model::intervals::Interval;
use model::limits::ROWS_MAX;

// The first overfull interval so far, if any, and the end to which each entry is pushed so far, at its place.
#[derive(Drop)]
pub struct Pass {
    pub(crate) first: Option<Interval>,
    // kept: an array by place, as the earliest starts of every rule are
    pub(crate) ends: [u32; ROWS_MAX],
}

impl<'a> Queue<'a> {
    // Adds the deadline at place j: what is filled up to it tells the overfull intervals and, at its highest, how far entries are pushed.
    fn add_deadline(&self, j: usize, found: &mut Pass)
        requires { (j < count (meant self.now.sheet)) × (Passed (meant self.now.sheet) j found.old) }
        ensures { Passed (meant self.now.sheet) (j + 1) found.new }
    {
        let levels = self.levels(self.sheet.entries[j].deadline);
        let mut highest: u32 = 0;
        // kept: a zip of the levels and the ends would need the place beside them, and a cut at the count, so it would be no plainer
        for k in 0..self.sheet.entries.len() {
            let level = levels[k];
            highest = highest.max(level);
            found.first = self.tried(k, j, level, found.first);
            found.ends[k] = self.pushed(k, j, highest, found.ends[k]);
        }
    }

    // What all deadlines find.
    pub(crate) fn whole_pass(&self) -> Pass
        ensures { Passed (meant self.now.sheet) (count (meant self.now.sheet)) result }
    {
        let mut found = Pass {
            first: None,
            ends: self.soonest_ends(),
        };
        // by place, which is what a step is given
        for j in 0..self.sheet.entries.len() {
            self.add_deadline(j, &mut found);
        }
        found
    }
}
