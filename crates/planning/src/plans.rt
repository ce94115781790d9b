// Planning a campaign file.
ghost use Rattle.std.specs.Prelude.{◌≡◌, ℕ, List};
ghost use Rattle.board.specs.Calls.{Bookings};
ghost use Rattle.board.specs.Held.{bookings};
ghost use Rattle.report.specs.Buffers.{Writes};
ghost use Rattle.planning.specs.Plans.{Plans, held_after};
ghost use Rattle.planning.specs.Promise.{EveryLoadEntersTheTestsOfItsFile, EveryPlanKeepsItsPromise, EveryFileHasOnePlan};

use board::boards::Board;
use campaign::load;
use elastic_rule::rule::Elastic;
use report::refusals::Refusal;
use report::reports::{refusal, report};
use shift_rule::shifts::Shift;
use sweep::sweeping::sweep;
use time_table_rule::rule::TimeTable;

// Loads a campaign file into a board, sweeps it with T, E and S, and writes the report at the front of a buffer; where the file has a
// fault, the board is as it was, and the buffer says what is wrong and where. A buffer may be too short for the text once the board is swept.
fn plan_and_tell(board: &mut Board, input: &[u8], out: &mut [u8]) -> Result<usize, Refusal>
    ensures { (text : List ℕ) × Plans input.now (bookings board.old) text (bookings board.new) × Writes text out.old result out.new }
{
    match load(board, input) {
        Ok(()) => {
            let swept = sweep(board, &TimeTable, &Elastic, &Shift);
            report(board, &swept, out)
        }
        Err(fault) => refusal(&fault, out),
    }
}

// Plans a campaign file: the board holds what its tests make, with the windows that a sweep by T, E and S leaves, and the report stands at
// the front of the buffer; or the file has a fault, which stands there, and the board is as it was. Where the buffer is too short for
// the text, that is refused, and board and buffer are as they were.
// The clause `promise` says what the report means: of which windows it speaks, what its verdict tells of the file, and that every file
// has one plan.
pub fn plan(board: &mut Board, input: &[u8], out: &mut [u8]) -> Result<usize, Refusal>
    ensures text { (text : List ℕ) × (after : Bookings) × Plans input.now (bookings board.old) text after × Writes text out.old result out.new × (bookings board.new ≡ held_after result (bookings board.old) after) }
    ensures promise { (EveryLoadEntersTheTestsOfItsFile) × ((EveryPlanKeepsItsPromise) × (EveryFileHasOnePlan)) }
{
    // kept: load does the same round other steps; one function over a closure that changes the board would be no plainer than four lines
    let saved = board.save();
    let written = plan_and_tell(board, input, out);
    if written.is_err() {
        board.restore(&saved);
    }
    written
}
