// Runs files with every fault through load and prints what comes back.
#![tactic(auto)]

mod files;

use board::boards::Board;
use campaign::load;
use files::filled;
use std::io::{BufRead, BufReader};

// A board of 7 channels with one row, which every case begins with, so that what a fault leaves can be seen.
const BEFORE: [u8; 10] = [7, 1, 1, 9, 9, 0, 20, 3, 2, 0];

// Two tests, a note and a test with a label, some of their numbers in two groups.
const SAMPLE: [u8; 39] = [
    2, 4, 1, 1, 5, 0, 4, 2, 1, 0, 1, 0x81, 0, 6, 0, 0xc0, 0x1f, 1, 1, 0, 0, 5, b'n', b'i', b'g',
    b'h', b't', 1, 2, 5, 3, 10, 2, 2, 4, b'r', b'e', b's', b't',
];

// kept: a bool is all that the callers ask, since the fault is printed here.
// Loads the file that stands before every case, then the file; prints the answer with the size of the board, and says whether the file was loaded.
fn show(rt: &HostRuntime, board: &mut Board, name: &str, file: &[u8]) -> anyhow::Result<bool> {
    let _ = load(board, &BEFORE);
    let loaded = load(board, file);
    match loaded {
        Ok(()) => print!(rt; "{name}: LOADED, ")?,
        Err(fault) => {
            let (number, layer) = (fault.cause.number(), fault.cause.layer().number());
            print!(rt;
                "{name}: REFUSED {number} {layer} {} {}, ",
                fault.record, fault.byte
            )?
        }
    }
    println!(rt; "C {} ROWS {}", board.capacity(), board.rows().len())?;
    Ok(loaded.is_ok())
}

// Prints the rows of a board.
// kept: faults and rows are printed by this program alone, and a Display for each would be longer.
fn show_rows(rt: &HostRuntime, board: &Board) -> anyhow::Result<()> {
    for row in board.rows() {
        print!(rt;
            "  {} {} {} {}",
            row.pair.profile, row.pair.bearer, row.present.release, row.present.deadline
        )?;
        println!(rt; " {} {}", row.duration, row.demand)?;
    }
    Ok(())
}

// Runs the cases of the input: a name, a colon and bytes in each line.
fn run_lines(rt: &HostRuntime, board: &mut Board) -> anyhow::Result<()> {
    let heap = rt.alloc();
    for line in BufReader::new(heap, rt.stdin())?.lines(heap) {
        let line = line?;
        if let Some((name, hex)) = line.as_str().split_once(':') {
            // The words after the colon are bytes in hexadecimal.
            // kept: the program of the campaigns has the same three lines, and a crate for both would be longer.
            let file: Vec<u8> = hex
                .split_whitespace()
                .map(|word| -> anyhow::Result<u8> { Ok(u8::from_str_radix(word, 16)?) })
                .try_collect(heap)?;
            if show(rt, board, name, file.as_slice())? {
                show_rows(rt, board)?;
            }
        }
    }
    Ok(())
}

// Runs every front of the sample.
fn run_fronts(rt: &HostRuntime, board: &mut Board) -> anyhow::Result<()> {
    for n in 0..=SAMPLE.len() {
        let name = format!(in rt.alloc(); "the first {n} bytes of the sample")?;
        show(rt, board, name.as_str(), &SAMPLE[0..n])?;
    }
    show_rows(rt, board)
}

// Runs files that are as long as they may be, or longer.
fn run_long(rt: &HostRuntime, board: &mut Board) -> anyhow::Result<()> {
    let heap = rt.alloc();
    for (tests, notes) in [(0, 0), (0, 128), (64, 64), (65, 0), (128, 0)] {
        let file = filled(heap, tests, notes)?;
        let name = format!(in heap; "{tests} tests and {notes} notes in {} bytes", file.len())?;
        show(rt, board, name.as_str(), file.as_slice())?;
    }
    Ok(())
}

// Runs as many bytes as `plan` reads at most, and one more, of a file with bytes left over: the fault is met before.
fn run_past(rt: &HostRuntime, board: &mut Board) -> anyhow::Result<()> {
    let mut file = filled(rt.alloc(), 128, 0)?;
    file.push(0)?;
    show(rt, board, "as many bytes as plan reads", file.as_slice())?;
    file.push(0)?;
    show(rt, board, "one byte more", file.as_slice())?;
    Ok(())
}

fn run(rt: &HostRuntime) -> anyhow::Result<()> {
    let mut board = Board::new(rt.alloc())?;
    run_lines(rt, &mut board)?;
    run_fronts(rt, &mut board)?;
    run_long(rt, &mut board)?;
    run_past(rt, &mut board)
}

fn main(rt: HostRuntime) -> anyhow::Result<()> {
    run(&rt)
}
