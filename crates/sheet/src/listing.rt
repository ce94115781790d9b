// Copying the entries of a sheet, so that a rule asks each question once.
ghost use Rattle.std.specs.Prelude.{◌≡◌, ℕ, ◌<◌, length, slice_index};
ghost use Rattle.model.specs.Sheets.{Sheet as Meant, count, entry};
ghost use Rattle.sheet.specs.Listed.{listed, kept, meant};

use crate::lists::{List, Listed};
use crate::sheets::Sheet;
use arrayvec::ArrayVec;
use model::entries::Entry;
use model::limits::ROWS_MAX;

// The capacity and the entries of a sheet.
pub fn list<S: Sheet>(sheet: &S) -> List
    ensures entries { listed result ≡ (S.Sheet.meaning sheet.now).entries }
    ensures sheet { kept result ≡ S.Sheet.meaning sheet.now }
{
    let mut entries = ArrayVec::new();
    while let Some(entry) = sheet.entry(entries.len()) {
        entries.push(entry);
    }
    List {
        capacity: sheet.capacity(),
        entries,
    }
}

impl List {
    pub fn entries(&self) -> &[Entry]
        ensures { result.now ≡ listed self.now }
    {
        self.entries.as_slice()
    }

    // The capacity and the entries, lent.
    pub fn lend(&self) -> Listed<'_>
        ensures { meant result ≡ kept self.now }
    {
        Listed {
            capacity: self.capacity,
            entries: self.entries(),
        }
    }
}

impl<'a> Listed<'a> {
    // The releases of the entries, at their places.
    pub fn releases(&self) -> [u16; ROWS_MAX]
        ensures { (k : ℕ) → k < count (meant self.now) → slice_index result k ≡ (entry (meant self.now) k).release }
    {
        // kept: tried as a zip with iter_mut, and what the array holds at the end stayed unproved
        let mut releases = [0; ROWS_MAX];
        for (place, entry) in self.entries.iter().enumerate() {
            releases[place] = entry.release;
        }
        releases
    }
}
