// What is filled up to a deadline.
ghost use Rattle.std.specs.Prelude.{◌≡◌};
ghost use Rattle.model.specs.Sheets.{count};
ghost use Rattle.model.specs.Energy.{work_inside, work_in};
ghost use Rattle.sheet.specs.Listed.{meant};
ghost use Rattle.elastic_rule.specs.Levels.{Levels};

use crate::queues::Queue;
use model::entries::Entry;
use model::limits::ROWS_MAX;

// The work of an entry that ends by t2, else 0.
fn work_by(e: &Entry, t2: u16) -> u32
    ensures { result ≡ work_inside 0 t2 e.now }
{
    if e.deadline <= t2 {
        u32::from(e.duration) * u32::from(e.demand)
    } else {
        0
    }
}

impl<'a> Queue<'a> {
    // The work of all entries that end by t2.
    fn all_work_by(&self, t2: u16) -> u32
        ensures { result ≡ work_in (meant self.now.sheet) 0 t2 }
    {
        self.sheet.entries.iter().map(|e| work_by(e, t2)).sum()
    }

    // What is filled up to t2 from the release of each entry, at its place. As releases rise, what is inside from a release on is what
    // is left when the first entry of that release comes.
    pub(crate) fn levels(&self, t2: u16) -> [u32; ROWS_MAX]
        ensures { Levels (meant self.now.sheet) t2 (count (meant self.now.sheet)) result }
    {
        let capacity = u32::from(self.sheet.capacity);
        // kept: an array by place, as the earliest starts of every rule are
        let mut levels = [0; ROWS_MAX];
        let mut rest = self.all_work_by(t2);
        let mut release = 0;
        let mut inside = rest;
        for (place, e) in self.sheet.entries.iter().enumerate() {
            if e.release > release {
                inside = rest;
            }
            levels[place] = capacity * u32::from(e.release) + inside;
            release = e.release;
            rest -= work_by(e, t2);
        }
        levels
    }
}
