// The board, with what holds of every board.
ghost use Rattle.board.specs.Calls.{SoundBookings};

use crate::table::Table;

// A channel capacity, and a table of rows.
#[derive(Drop)]
pub struct Board {
    pub(crate) capacity: u16,
    pub(crate) table: Table,
    ghost sound: { SoundBookings (record { capacity = capacity; rows = table }) },
}
