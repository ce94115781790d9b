// Any sheet with the deadline of one entry replaced.
ghost use Rattle.std.specs.Prelude.{◌≡◌, ◌+◌, ◌≤◌};
ghost use Rattle.model.specs.Sheets.{Sheet as Meant, cut, cut_entry};
ghost use Rattle.model.proofs.Cuts.{cut_sound};

use crate::sheets::Sheet;
use model::entries::Entry;

// An entry with its deadline replaced, where the new one leaves room and is no later.
fn cut_at(e: Entry, deadline: u16) -> Entry
    requires { e.release + e.duration ≤ e.deadline }
    ensures { result ≡ cut_entry deadline e }
{
    if e.release + e.duration <= deadline && deadline <= e.deadline {
        Entry { deadline, ..e }
    } else {
        e
    }
}

#[derive(Drop)]
pub struct Cut<'a, S> {
    below: &'a S,
    place: usize,
    deadline: u16,
}

impl<'a, S: Sheet> Cut<'a, S> {
    pub fn of(below: &'a S, place: usize, deadline: u16) -> Self
        ensures { (result.below.now ≡ below.now) × ((result.place ≡ place) × (result.deadline ≡ deadline)) }
    {
        Cut {
            below,
            place,
            deadline,
        }
    }
}

impl<'a, S: Sheet> Sheet for Cut<'a, S> {
    ghost meaning = { λ m. cut (S.Sheet.meaning m.below.now) m.place m.deadline };

    ghost limits = { λ m. cut_sound (S.Sheet.meaning m.below.now) m.place m.deadline (S.Sheet.limits m.below.now) };

    fn capacity(&self) -> u16 {
        self.below.capacity()
    }

    fn count(&self) -> usize {
        self.below.count()
    }

    fn entry(&self, place: usize) -> Option<Entry> {
        let e = self.below.entry(place)?;
        if place == self.place {
            Some(cut_at(e, self.deadline))
        } else {
            Some(e)
        }
    }
}
