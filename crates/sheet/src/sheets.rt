// What every sheet answers.
ghost use Rattle.std.specs.Prelude.{◌≡◌};
ghost use Rattle.model.specs.Sheets.{Sheet as Meant, Sound, count, entry_at};

use model::entries::Entry;

// A sheet means a capacity and a list of entries within the limits. Questions change nothing, and the same question has the same answer.
pub trait Sheet {
    ghost meaning: { Self → Meant };

    ghost limits: { (s : Self) → Sound (meaning s) };

    fn capacity(&self) -> u16
        ensures { result ≡ (meaning self.now).capacity };

    fn count(&self) -> usize
        ensures { result ≡ count (meaning self.now) };

    // The entry at a place, absent from the count upward.
    fn entry(&self, place: usize) -> Option<Entry>
        ensures { result ≡ entry_at (meaning self.now) place };
}
