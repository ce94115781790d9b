// Plans stored campaign files, one after the other on the same board.
#![tactic(auto)]

use anyhow::anyhow;
use board::boards::Board;
use planning::plan;
use report::texts::REPORT_MAX;
use std::io::{BufRead, BufReader, Write};

// Plans a file, and prints the report, or what is wrong with the file.
// kept: `plan` has the same two steps, and a crate for both would be longer.
fn show(rt: &HostRuntime, board: &mut Board, file: &[u8]) -> anyhow::Result<()> {
    // kept: fixed memory, as every report has
    let mut out = [0u8; REPORT_MAX];
    let length = plan(board, file, &mut out).map_err(|_| anyhow!(
        "the report is longer than its buffer"
    ))?;
    Ok(rt.stdout().write_all(&out[..length])?)
}

// Runs the files of the input, one in each line; a line that begins with # says what the files after it are, and is printed.
// All files go into the same board, one after the other.
fn run(rt: &HostRuntime) -> anyhow::Result<()> {
    let heap = rt.alloc();
    let mut board = Board::new(heap)?;
    for line in BufReader::new(heap, rt.stdin())?.lines(heap) {
        let line = line?;
        if line.as_str().starts_with('#') {
            println!(rt; "{line}")?;
        } else {
            // The words of the line are bytes in hexadecimal.
            // kept: the program of the faults has the same three lines, and a crate for both would be longer.
            let file: Vec<u8> = line
                .as_str()
                .split_whitespace()
                .map(|word| -> anyhow::Result<u8> { Ok(u8::from_str_radix(word, 16)?) })
                .try_collect(heap)?;
            show(rt, &mut board, file.as_slice())?;
        }
    }
    Ok(())
}

fn main(rt: HostRuntime) -> anyhow::Result<()> {
    run(&rt)
}
