// A copy of what a board holds, which asks for no memory.
ghost use Rattle.board.specs.Calls.{SoundBookings};

use arrayvec::ArrayVec;
use model::limits::ROWS_MAX;
use model::rows::Row;

// The capacity and the rows.
#[derive(Drop)]
pub struct Saved {
    pub(crate) capacity: u16,
    pub(crate) rows: ArrayVec<Row, ROWS_MAX>,
    ghost sound: { SoundBookings (record { capacity = capacity; rows = rows.items }) },
}
