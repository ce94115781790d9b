// The first overfull interval.
ghost use Rattle.std.specs.Prelude.{◌≡◌, ◌+◌, ◌<◌};
ghost use Rattle.model.specs.Sheets.{count, entry};
ghost use Rattle.model.specs.Rules.{Named};
ghost use Rattle.elastic.specs.Pushes.{filled};
ghost use Rattle.sheet.specs.Listed.{meant};
ghost use Rattle.elastic_rule.specs.Tried.{Tried, sooner};

use crate::queues::Queue;
use model::intervals::Interval;

// The first, by start and then by end, of an interval and of what was found before.
// kept: S has the like, over an answer of its own; one function for both lines would be no plainer.
fn first(found: Option<Interval>, interval: Interval) -> Interval
    ensures { result ≡ sooner found interval }
{
    found.map_or(interval, |before| before.min(interval))
}

impl<'a> Queue<'a> {
    // The first overfull interval once the one from the release at place i to the deadline at place j is tried too.
    pub(crate) fn tried(
        &self,
        i: usize,
        j: usize,
        level: u32,
        before: Option<Interval>,
    ) -> Option<Interval>
        requires { (i < count (meant self.now.sheet)) × ((j < count (meant self.now.sheet)) × ((level ≡ filled (meant self.now.sheet) (entry (meant self.now.sheet) i).release (entry (meant self.now.sheet) j).deadline) × (Named (Tried (meant self.now.sheet) j i) before))) }
        ensures { Named (Tried (meant self.now.sheet) j (i + 1)) result }
    {
        let t1 = self.sheet.entries[i].release;
        let t2 = self.sheet.entries[j].deadline;
        if t1 < t2 && level > u32::from(self.sheet.capacity) * u32::from(t2) {
            Some(first(before, Interval { t1, t2 }))
        } else {
            before
        }
    }
}
