// The sheet of some rows in their present windows.
ghost use Rattle.board.specs.Calls.{SoundBookings};

use model::rows::Row;

// What a board holds: a capacity, and rows within the limits.
#[derive(Drop)]
pub struct Present<'a> {
    pub(crate) capacity: u16,
    pub(crate) rows: &'a [Row],
    ghost sound: { SoundBookings (record { capacity = capacity; rows = rows.now }) },
}
