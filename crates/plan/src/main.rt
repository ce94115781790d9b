// Reads a campaign file from standard input, plans it, and prints the report, or what is wrong with the file.
#![tactic(auto)]

use anyhow::anyhow;
use board::boards::Board;
use planning::plan;
use report::texts::REPORT_MAX;
use std::io::{Read, Write};

// One byte more than the longest file of as many records as a file may have.
const INPUT_MAX: u64 = 28679;

fn main(rt: HostRuntime) -> anyhow::Result<()> {
    let heap = rt.alloc();
    let mut input = Vec::new(heap);
    rt.stdin().take(INPUT_MAX).read_to_end(&mut input)?;
    let mut board = Board::new(heap)?;
    // kept: fixed memory, as every report has; `campaigns` has the same two steps, and a crate for both would be longer
    let mut out = [0u8; REPORT_MAX];
    let length = plan(&mut board, &input, &mut out).map_err(|_| anyhow!(
        "the report is longer than its buffer"
    ))?;
    Ok(rt.stdout().write_all(&out[..length])?)
}
