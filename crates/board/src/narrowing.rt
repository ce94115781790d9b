// Narrowing one row.
ghost use Rattle.std.specs.Prelude.{◌≡◌, MatchBool};
ghost use Rattle.board.specs.Calls.{FitsIn, FitsAt, narrowed_at};
ghost use Rattle.board.specs.Held.{bookings};

use crate::boards::Board;
use model::rows::Row;
use model::windows::Window;

// Whether a window lies inside the entered window of a row and has room for its duration.
fn holds(row: &Row, window: Window) -> bool
    ensures { MatchBool result (FitsIn row.now window) (¬ FitsIn row.now window) }
{
    window.release >= row.entered.release
        && window.deadline <= row.entered.deadline
        && u32::from(window.release) + u32::from(row.duration) <= u32::from(window.deadline)
}

impl Board {
    // Gives the row at a place a new present window, which changes nothing else on the board, and answers true;
    // where there is no such row, or the window does not fit it, nothing changes and the answer is false.
    // kept: a Result without a reason in it would be no plainer.
    pub fn narrow(&mut self, place: usize, window: Window) -> bool
        ensures answer { MatchBool result (FitsAt (bookings self.old) place window) (¬ FitsAt (bookings self.old) place window) }
        ensures board { MatchBool result (bookings self.new ≡ narrowed_at (bookings self.old) place window) (bookings self.new ≡ bookings self.old) }
    {
        let fits = self.rows().get(place).is_some_and(|row| holds(row, window));
        if fits {
            self.table.narrow(place, window);
        }
        fits
    }
}
