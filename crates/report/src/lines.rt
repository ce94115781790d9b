// The lines of a report.
ghost use Rattle.std.specs.Prelude.{◌≡◌, ◌+◌, ◌*◌, ◌≤◌, ◌++◌, length};
ghost use Rattle.board.specs.Held.{bookings};
ghost use Rattle.arrayvec.specs.ArrayString.{array_string_len};
ghost use Rattle.report.specs.Lines.{head_line, row_line, row_lines, board_lines, verdict_words, verdict_line, report_lines, fault_line};

use crate::texts::{REPORT_MAX, Text};
use crate::writing::{Lines, figure, overfull, squeezed};
use board::answers::{Swept, Verdict};
use board::boards::Board;
use campaign::faults::Fault;
use model::rows::Row;

// The capacity and the number of rows.
fn head(board: &Board, text: &mut Text)
    requires { array_string_len text.old + 49 ≤ REPORT_MAX }
    ensures bytes { text.new.bytes ≡ text.old.bytes ++ head_line (bookings board.now) }
    ensures len { array_string_len text.new ≤ array_string_len text.old + 49 }
{
    text.push_str("C ");
    figure(text, board.capacity(), " ");
    text.push_str("ROWS ");
    figure(text, board.rows().len(), "\n");
}

// The pair and the present window of a row.
impl Lines for Row {
    ghost lines = { row_line };

    ghost most = { 84 };

    fn write(&self, text: &mut Text) {
        figure(text, self.pair.profile, " ");
        figure(text, self.pair.bearer, " ");
        figure(text, self.present.release, " ");
        figure(text, self.present.deadline, "\n");
    }
}

// The lines of some rows.
fn rows(rows: &[Row], text: &mut Text)
    requires { array_string_len text.old + 84 * length rows.now ≤ REPORT_MAX }
    ensures bytes { text.new.bytes ≡ text.old.bytes ++ row_lines rows.now }
    ensures len { array_string_len text.new ≤ array_string_len text.old + 84 * length rows.now }
{
    for row in rows {
        row.write(text);
    }
}

// The first line and the lines of the rows of a board.
impl Lines for Board {
    ghost lines = { λ b. board_lines (bookings b) };

    ghost most = { 5425 };

    fn write(&self, text: &mut Text) {
        head(self, text);
        rows(self.rows(), text);
    }
}

// How a sweep ended.
impl Lines for Verdict {
    ghost lines = { verdict_words };

    ghost most = { 60 };

    fn write(&self, text: &mut Text) {
        match *self {
            Verdict::Settled => text.push_str("SETTLED "),
            Verdict::Overfull { letter, interval } => overfull(text, letter, interval, " "),
            Verdict::Squeezed { letter, row } => squeezed(text, letter, row, " "),
        }
    }
}

// The line of a sweep's answer.
impl Lines for Swept {
    ghost lines = { verdict_line };

    ghost most = { 81 };

    fn write(&self, text: &mut Text) {
        self.verdict.write(text);
        figure(text, self.rounds, "\n");
    }
}

// A board and the answer of a sweep.
#[derive(Clone, Copy)]
pub(crate) struct Report<'a> {
    pub(crate) board: &'a Board,
    pub(crate) swept: &'a Swept,
}

impl<'a> Lines for Report<'a> {
    ghost lines = { λ r. report_lines (bookings r.board.now) r.swept.now };

    ghost most = { 5506 };

    fn write(&self, text: &mut Text) {
        self.board.write(text);
        self.swept.write(text);
    }
}

// The line of a fault.
impl Lines for Fault {
    ghost lines = { fault_line };

    ghost most = { 92 };

    fn write(&self, text: &mut Text) {
        text.push_str("REFUSED ");
        figure(text, self.cause.number(), " ");
        figure(text, self.cause.layer().number(), " ");
        figure(text, self.record, " ");
        figure(text, self.byte, "\n");
    }
}
