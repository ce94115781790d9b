// Entering the records of a file, one after another.
ghost use Rattle.std.specs.Prelude.{◌≡◌, MatchResult};
ghost use Rattle.board.specs.Held.{bookings};
ghost use Rattle.records.specs.Reading.{spot};
ghost use Rattle.campaign.specs.Loads.{asked_by, Booked, BadRecord, Front, BadFront};

use crate::faults::{Cause, Fault};
use board::boards::Board;
use board::bookings::Test;
use model::rows::Pair;
use records::reader::Reader;
use records::records::{Fields, Record};

// The test that a record's numbers ask for.
// kept: neither type is of this crate, and those of the two know nothing of each other, so no From can stand between them.
fn asked(fields: Fields) -> Test
    ensures { result ≡ asked_by fields }
{
    let pair = Pair {
        profile: fields.profile,
        bearer: fields.bearer,
    };
    Test {
        pair,
        release: fields.release,
        deadline: fields.deadline,
        duration: fields.duration,
        demand: fields.demand,
    }
}

// Reads the record that comes next, which has the given number, and enters it if it is a test.
// kept: tried with one struct for board and reader, and the check has no rule yet for a struct that holds a &mut Board, so that no proof
// was found for the two functions that read the header and the whole file.
fn enter_record(board: &mut Board, reader: &mut Reader, number: u32) -> Result<(), Fault>
    ensures { MatchResult result (λ _. Booked (spot reader.old) (bookings board.old) (spot reader.new) (bookings board.new)) (λ f. BadRecord number (spot reader.old) (bookings board.old) f) }
{
    let record = reader
        .record()
        .map_err(|misread| Fault::unread(number, misread))?;
    if let Record::Test { fields, at, .. } = record {
        board
            .enter(asked(fields))
            .map_err(|refusal| Cause::Board(refusal).at(number, at))?;
    }
    Ok(())
}

// Reads so many records, and enters the tests among them.
pub(crate) fn enter_records(board: &mut Board, reader: &mut Reader, count: u32) -> Result<(), Fault>
    ensures { MatchResult result (λ _. Front (spot reader.old) (bookings board.old) count (spot reader.new) (bookings board.new)) (λ f. BadFront (spot reader.old) (bookings board.old) count f) }
{
    for number in 1..=count {
        enter_record(board, reader, number)?;
    }
    Ok(())
}
