// Writing the windows of all rows.
ghost use Rattle.std.specs.Prelude.{◌≡◌, ℕ, ◌<◌, ◌≤◌, length, MatchBool};
ghost use Rattle.model.specs.Limits.{row_at};
ghost use Rattle.board.specs.Calls.{FitsIn};
ghost use Rattle.board.specs.Held.{bookings};
ghost use Rattle.runs.specs.Applying.{Writes};
ghost use Rattle.sweep.specs.Windows.{window_at};

use board::boards::Board;
use model::rows::Row;
use model::windows::Window;

// Whether some row would get another window than its present one.
pub(crate) fn differ(rows: &[Row], windows: &[Window]) -> bool
    requires { length rows.now ≤ length windows.now }
    ensures { MatchBool result ((k : ℕ) × (k < length rows.now) × (¬ (window_at windows.now k ≡ (row_at rows.now k).present))) ((k : ℕ) → k < length rows.now → window_at windows.now k ≡ (row_at rows.now k).present) }
{
    rows.iter()
        .zip(windows)
        .any(|(row, window)| row.present != *window)
}

// Gives each row its window, and changes nothing else.
pub(crate) fn write(board: &mut Board, windows: &[Window])
    requires { (length (bookings board.old).rows ≤ length windows.now) × (((k : ℕ) → k < length (bookings board.old).rows → FitsIn (row_at (bookings board.old).rows k) (window_at windows.now k))) }
    ensures { Writes (window_at windows.now) (bookings board.old) (bookings board.new) }
{
    let windows = &windows[..board.rows().len()];
    for (place, window) in windows.iter().enumerate() {
        board.narrow(place, *window);
    }
}
