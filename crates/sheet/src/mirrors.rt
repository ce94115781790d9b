// The mirror of any sheet: time runs backwards.
ghost use Rattle.std.specs.Prelude.{◌≡◌, ◌+◌, ◌≤◌};
ghost use Rattle.model.specs.Sheets.{Sheet as Meant, mirror, mirror_entry, horizon};
ghost use Rattle.model.proofs.Mirrors.{mirror_sound};

use crate::sheets::Sheet;
use model::entries::Entry;
use model::limits::SLOTS;

// An entry seen from the other end of time.
fn mirrored(e: Entry) -> Entry
    requires { (e.release ≤ horizon) × (e.deadline ≤ horizon) }
    ensures { result ≡ mirror_entry e }
{
    Entry {
        release: SLOTS - e.deadline,
        deadline: SLOTS - e.release,
        ..e
    }
}

#[derive(Drop)]
pub struct Mirror<'a, S> {
    below: &'a S,
}

impl<'a, S: Sheet> Mirror<'a, S> {
    pub fn of(below: &'a S) -> Self
        ensures { result.below.now ≡ below.now }
    {
        Mirror { below }
    }
}

// kept: capacity and count are handed on here and by a cut; a trait for what lies below a sheet would be longer than the four lines.
impl<'a, S: Sheet> Sheet for Mirror<'a, S> {
    ghost meaning = { λ m. mirror (S.Sheet.meaning m.below.now) };

    ghost limits = { λ m. mirror_sound (S.Sheet.meaning m.below.now) (S.Sheet.limits m.below.now) };

    fn capacity(&self) -> u16 {
        self.below.capacity()
    }

    fn count(&self) -> usize {
        self.below.count()
    }

    fn entry(&self, place: usize) -> Option<Entry> {
        let e = self.below.entry(place)?;
        Some(mirrored(e))
    }
}
