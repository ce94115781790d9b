// Reports into buffers of a given length.
use crate::sessions::Session;
use board::boards::Board;
use campaign::load;
use report::refusals::Refusal;
use report::reports::{listing, refusal, report, verdict};
use std::alloc::{AllocError, Global};
use std::io;
use std::io::Write;

const BUFFER: usize = 256;

// The bytes that numbers name.
fn bytes(heap: Global, given: &[u32]) -> Result<Vec<u8>, AllocError> {
    given
        .iter()
        .map(|number| (*number % 256) as u8)
        .collect(heap)
}

// Prints an answer and the whole buffer, which then has a stroke for each end of a line.
fn show_buffer(
    rt: &HostRuntime,
    answer: Result<usize, Refusal>,
    buffer: &mut [u8],
) -> io::Result<()> {
    match answer {
        Ok(length) => print!(rt; "{length} ")?,
        Err(short) => print!(rt; "refused {} ", short.number())?,
    }
    for byte in buffer.iter_mut() {
        if *byte == b'\n' {
            *byte = b'/';
        }
    }
    rt.stdout().write_all(buffer)?;
    rt.println("")
}

// Loads a file into the board, and writes what is wrong with it; a file that is loaded leaves the buffer as it was.
fn write_fault(board: &mut Board, file: &[u8], buffer: &mut [u8]) -> Result<usize, Refusal> {
    match load(board, file) {
        Ok(()) => Ok(0),
        Err(fault) => refusal(&fault, buffer),
    }
}

// Writes the report that a word names into a buffer of full stops, as long as the first number says; says false if it names none.
pub(crate) fn write(
    rt: &HostRuntime,
    session: &mut Session,
    word: &str,
    given: &[u32],
) -> io::Result<bool> {
    // kept: fixed memory, of which a line asks for a part
    let mut buffer = [b'.'; BUFFER];
    let Some((length, file)) = given.split_first() else {
        return Ok(false)
    };
    // a usize has 64 bits, but From does not know it
    let length = *length as usize;
    if length > BUFFER {
        return Ok(false);
    }
    let out = &mut buffer[0..length];
    let answer = match word {
        "report" => report(&session.board, &session.swept, out),
        "listing" => listing(&session.board, out),
        "verdict" => verdict(&session.swept, out),
        "fault" => {
            let file = bytes(rt.alloc(), file)?;
            write_fault(&mut session.board, file.as_slice(), out)
        }
        _ => return Ok(false),
    };
    show_buffer(rt, answer, out)?;
    Ok(true)
}
