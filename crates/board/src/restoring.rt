// Saving what a board holds, and putting it back.
ghost use Rattle.std.specs.Prelude.{◌≡◌};
ghost use Rattle.board.specs.Held.{bookings, kept};

use crate::boards::Board;
use crate::saved::Saved;
use arrayvec::ArrayVec;

impl Board {
    // What the board holds, to be put back later.
    pub fn save(&self) -> Saved
        ensures { kept result ≡ bookings self.now }
    {
        let mut saved = Saved {
            capacity: self.capacity,
            rows: ArrayVec::new(),
        };
        saved.rows.try_extend_from_slice(self.rows()).unwrap();
        saved
    }

    // Makes the board hold what was saved.
    pub fn restore(&mut self, saved: &Saved)
        ensures { bookings self.new ≡ kept saved.now }
    {
        self.table.refill(saved.rows.as_slice());
        self.capacity = saved.capacity;
    }
}
