// Evidence of every kind tells an interval.
ghost use Rattle.std.specs.Prelude.{◌≡◌, ◌+◌};
ghost use Rattle.model.specs.declared.intervals.Interval.{Interval as Told};

use crate::slots::Slot;
use model::intervals::Interval;

// kept: a From would be no plainer, since it says of its answer only what holds of it, and the contract of a rule needs the interval
// as a function of the evidence.
pub trait Tells {
    ghost told: { Self → Told };

    fn interval(&self) -> Interval
        ensures { result ≡ told self.now };
}

impl Tells for Slot {
    ghost told = { λ s. record { t1 = s.at; t2 = s.at + 1 } };

    fn interval(&self) -> Interval {
        Interval {
            t1: self.at,
            t2: self.at + 1,
        }
    }
}

impl Tells for Interval {
    ghost told = { λ i. i };

    fn interval(&self) -> Interval {
        *self
    }
}
