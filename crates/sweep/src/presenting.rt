// What the sheet of present windows answers.
ghost use Rattle.std.specs.Prelude.{◌≡◌};
ghost use Rattle.board.specs.Held.{bookings};
ghost use Rattle.runs.specs.Applying.{at_present};
ghost use Rattle.sweep.specs.Meant.{rows_of, rows_sound};

use crate::present::Present;
use board::boards::Board;
use model::entries::Entry;
use sheet::sheets::Sheet;

// The sheet of a board's rows in their present windows.
pub fn present(board: &Board) -> Present<'_>
    ensures { rows_of result ≡ bookings board.now }
{
    Present {
        capacity: board.capacity(),
        rows: board.rows(),
    }
}

impl<'a> Sheet for Present<'a> {
    ghost meaning = { λ s. at_present (rows_of s) };

    ghost limits = { rows_sound };

    fn capacity(&self) -> u16 {
        self.capacity
    }

    fn count(&self) -> usize {
        self.rows.len()
    }

    fn entry(&self, place: usize) -> Option<Entry> {
        // kept: a row has two windows, so that a From would not say which of them the entry has
        let row = self.rows.get(place)?;
        Some(Entry {
            release: row.present.release,
            deadline: row.present.deadline,
            duration: row.duration,
            demand: row.demand,
        })
    }
}
