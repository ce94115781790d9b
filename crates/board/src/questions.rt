// What a board answers of itself.
ghost use Rattle.std.specs.Prelude.{◌≡◌};
ghost use Rattle.board.specs.Held.{bookings};

use crate::boards::Board;
use model::rows::Row;

impl Board {
    pub fn capacity(&self) -> u16
        ensures { result ≡ (bookings self.now).capacity }
    {
        self.capacity
    }

    // The rows in order of entry.
    pub fn rows(&self) -> &[Row]
        ensures { result.now ≡ (bookings self.now).rows }
    {
        self.table.as_slice()
    }
}
