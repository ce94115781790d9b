// Loading a file.
ghost use Rattle.std.specs.Result.{MatchResult};
ghost use Rattle.board.specs.Held.{bookings};
ghost use Rattle.records.specs.Reading.{spot};
ghost use Rattle.campaign.specs.Loads.{Heads, BadHeader, Loads, held_after};

use crate::entering::enter_records;
use crate::faults::{Cause, Fault};
use board::boards::Board;
use records::reader::Reader;

// The most records that a file may have.
const RECORDS_MAX: u32 = 128;

// Reads the header, builds the board, and answers how many records follow.
fn build(board: &mut Board, reader: &mut Reader) -> Result<u32, Fault>
    ensures { MatchResult result (λ count. Heads (spot reader.old) (bookings board.old) count (spot reader.new) (bookings board.new)) (λ f. BadHeader (spot reader.old) (bookings board.old) f) }
{
    let byte = reader.place();
    let capacity = reader
        .number()
        .map_err(|misread| Fault::unread(0, misread))?;
    board
        .build(capacity)
        .map_err(|refusal| Cause::Board(refusal).at(0, byte))?;
    let byte = reader.place();
    let count = reader
        .number()
        .map_err(|misread| Fault::unread(0, misread))?;
    if count > RECORDS_MAX {
        return Err(Cause::TooManyRecords.at(0, byte));
    }
    Ok(count)
}

// Loads a file into a board, of which a part may be loaded where a fault is met.
fn fill(board: &mut Board, input: &[u8]) -> Result<(), Fault>
    ensures { Loads input.now (bookings board.old) result (held_after result (bookings board.old) (bookings board.new)) }
{
    let mut reader = Reader::new(input);
    let count = build(board, &mut reader)?;
    enter_records(board, &mut reader, count)?;
    if reader.at_end() {
        Ok(())
    } else {
        Err(Cause::LeftOver.at(count, reader.place()))
    }
}

// Loads a file into a board. Where the file has a fault, the board is as it was.
pub fn load(board: &mut Board, input: &[u8]) -> Result<(), Fault>
    ensures { Loads input.now (bookings board.old) result (bookings board.new) }
{
    // kept: planning does the same round other steps; one function over a closure that changes the board would be no plainer than four lines
    let saved = board.save();
    let loaded = fill(board, input);
    if loaded.is_err() {
        board.restore(&saved);
    }
    loaded
}
