// Runs limits, evidence, windows and rounds through the public calls and prints one line for each.
#![tactic(auto)]

mod asking;
mod calling;
mod reporting;
mod sessions;

use asking::ask;
use board::answers::{Swept, Verdict};
use board::boards::Board;
use calling::{call, keep, narrow, settle};
use reporting::write;
use sessions::Session;
use std::alloc::Global;
use std::io;
use std::io::{BufRead, BufReader, ErrorKind};

// The numbers that the words of a line write in base ten.
fn numbers(heap: Global, words: &str) -> io::Result<Vec<u32>> {
    words
        .split_whitespace()
        .map(|word| word
            .parse::<u32>()
            .map_err(|_| io::Error::from(ErrorKind::InvalidData)))
        .try_collect(heap)
}

// Runs one line, a word and numbers. The parts of the program know words of their own.
// kept: each part is given the word and the numbers, and says whether the word is its own; an enum of all that a line can ask would name
// each word twice, and be no plainer
fn run_line(rt: &HostRuntime, session: &mut Session, word: &str, given: &[u32]) -> io::Result<()> {
    let board = &mut session.board;
    if call(rt, board, word, given)? || narrow(rt, board, word)? || ask(rt, board, word, given)? {
        return Ok(());
    }
    if settle(rt, session, word)? || keep(rt, session, word)? || write(rt, session, word, given)? {
        return Ok(());
    }
    Err(ErrorKind::InvalidInput.into())
}

// Runs the lines of the input, a word, a colon and numbers in each, and prints each with its answer. A line without a colon is only printed.
fn run(rt: &HostRuntime) -> io::Result<()> {
    let heap = rt.alloc();
    let board = Board::new(heap)?;
    let saved = board.save();
    let mut session = Session {
        board,
        saved,
        // kept: an Option would be no plainer, since no line asks for the answer of a sweep that was never made
        swept: Swept {
            verdict: Verdict::Settled,
            rounds: 0,
        },
    };
    for line in BufReader::new(heap, rt.stdin())?.lines(heap) {
        let line = line?;
        match line.as_str().split_once(':') {
            Some((word, rest)) => {
                let given = numbers(heap, rest)?;
                print!(rt; "{line} -> ")?;
                run_line(rt, &mut session, word, given.as_slice())?;
            }
            None => rt.println(line.as_str())?,
        }
    }
    Ok(())
}

fn main(rt: HostRuntime) -> io::Result<()> {
    run(&rt)
}
