// The entries of a sheet in memory of their own.
ghost use Rattle.model.specs.Sheets.{Sound};
ghost use Rattle.sheet.specs.Entries.{sheet};

use arrayvec::ArrayVec;
use model::entries::Entry;
use model::limits::ROWS_MAX;

// A capacity, and entries within its limits: as many as a sheet may have.
#[derive(Drop)]
pub struct List {
    pub(crate) capacity: u16,
    pub(crate) entries: ArrayVec<Entry, ROWS_MAX>,
    ghost sound: { Sound (sheet capacity entries.items) },
}

// The same, lent for a rule to compute with.
#[derive(Clone, Copy)]
pub struct Listed<'a> {
    pub capacity: u16,
    pub entries: &'a [Entry],
    ghost sound: { Sound (sheet capacity entries.now) },
}
