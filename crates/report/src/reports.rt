// The reports, each written at the front of a buffer.
ghost use Rattle.std.specs.Prelude.{◌≤◌};
ghost use Rattle.board.specs.Held.{bookings};
ghost use Rattle.report.specs.Buffers.{Writes};
ghost use Rattle.report.specs.Lines.{board_lines, verdict_line, report_lines, fault_line};
ghost use Rattle.report.specs.Replies.{reply_line};

use crate::lines::Report;
use crate::refusals::Refusal;
use crate::replies::Reply;
use crate::texts::{REPORT_MAX, Text};
use crate::writing::Lines;
use board::answers::Swept;
use board::boards::Board;
use campaign::faults::Fault;

// Writes a value at the front of a buffer.
fn put<T: Lines>(value: &T, out: &mut [u8]) -> Result<usize, Refusal>
    requires { T.most ≤ REPORT_MAX }
    ensures { Writes (T.lines value.now) out.old result out.new }
{
    let mut text = Text::new();
    value.write(&mut text);
    let bytes = text.as_str().as_bytes();
    let n = bytes.len();
    if n > out.len() {
        return Err(Refusal::Short);
    }
    out[..n].copy_from_slice(bytes);
    Ok(n)
}

// kept: the five calls below are public by their names, and each writes another thing, so that one generic call would be no plainer.

// The capacity, and the rows with their present windows.
pub fn listing(board: &Board, out: &mut [u8]) -> Result<usize, Refusal>
    ensures { Writes (board_lines (bookings board.now)) out.old result out.new }
{
    put(board, out)
}

// How a sweep ended, and its rounds.
pub fn verdict(swept: &Swept, out: &mut [u8]) -> Result<usize, Refusal>
    ensures { Writes (verdict_line swept.now) out.old result out.new }
{
    put(swept, out)
}

// A board and the answer of a sweep.
pub fn report(board: &Board, swept: &Swept, out: &mut [u8]) -> Result<usize, Refusal>
    ensures { Writes (report_lines (bookings board.now) swept.now) out.old result out.new }
{
    put(&Report { board, swept }, out)
}

// What is wrong with a campaign file, and where.
pub fn refusal(fault: &Fault, out: &mut [u8]) -> Result<usize, Refusal>
    ensures { Writes (fault_line fault.now) out.old result out.new }
{
    put(fault, out)
}

// The answer to a command.
pub fn reply(reply: Reply, out: &mut [u8]) -> Result<usize, Refusal>
    ensures { Writes (reply_line reply) out.old result out.new }
{
    put(&reply, out)
}
