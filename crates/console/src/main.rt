// Reads a command a line from standard input, calls the board, and prints an answer for each.
#![tactic(auto)]

ghost use Rattle.std.specs.Prelude.{ℕ, List};
ghost use Rattle.board.specs.Held.{bookings};
ghost use Rattle.commands.specs.Commands.{Reads};
ghost use Rattle.commands.specs.declared.commands.Line.{Line as LineT};
ghost use Rattle.console.specs.Console.{Obeys, Answers};
ghost use Rattle.report.specs.Buffers.{Writes};

use anyhow::anyhow;
use board::boards::Board;
use board::places::place;
use commands::commands::{Command, Line};
use commands::reading::{read, without_end};
use elastic_rule::rule::Elastic;
use letters::lettered::apply_by_letter;
use report::refusals::Refusal;
use report::replies::Reply;
use report::reports::{listing, reply, verdict};
use report::texts::REPORT_MAX;
use shift_rule::shifts::Shift;
use std::io::{BufRead, BufReader, Write};
use sweep::sweeping::sweep;
use time_table_rule::rule::TimeTable;

// Does what a command says, and writes its answer at the front of a buffer.
fn obey(board: &mut Board, command: Command, out: &mut [u8]) -> Result<usize, Refusal>
    ensures { (text : List ℕ) × Obeys (bookings board.old) command text (bookings board.new) × Writes text out.old result out.new }
{
    match command {
        Command::Build(capacity) => reply(Reply::called(board.build(capacity)), out),
        Command::Enter(test) => reply(Reply::called(board.enter(test)), out),
        Command::Withdraw(pair) => reply(Reply::called(board.withdraw(pair)), out),
        Command::Rebook {
            pair,
            release,
            deadline,
        } => reply(Reply::called(board.rebook(pair, release, deadline)), out),
        Command::Place(pair) => reply(Reply::placed(place(pair)), out),
        Command::Apply(letter) => reply(
            Reply::applied(letter, apply_by_letter(board, letter)),
            out,
        ),
        Command::Sweep => verdict(&sweep(board, &TimeTable, &Elastic, &Shift), out),
        Command::Show => listing(board, out),
    }
}

// Writes the answer to a line at the front of a buffer; a line that is passed over has none.
fn answer(board: &mut Board, line: &[u8], out: &mut [u8]) -> Result<usize, Refusal>
    ensures { (said : LineT) × (text : List ℕ) × Reads line.now said × Answers (bookings board.old) said text (bookings board.new) × Writes text out.old result out.new }
{
    match read(line) {
        Line::Nothing => Ok(0),
        Line::Unknown => reply(Reply::Unknown, out),
        Line::Says(command) => obey(board, command, out),
    }
}

fn main(rt: HostRuntime) -> anyhow::Result<()> {
    let heap = rt.alloc();
    let mut board = Board::new(heap)?;
    let mut input = BufReader::new(heap, rt.stdin())?;
    let mut line = Vec::new(heap);
    // Nothing says that an input ends, so the turns are counted.
    for _ in 0..u64::MAX {
        line.clear();
        if input.read_until(b'\n', &mut line)? == 0 {
            break;
        }
        // kept: fixed memory, as every report has
        let mut out = [0u8; REPORT_MAX];
        let length = answer(&mut board, without_end(&line), &mut out).map_err(|_| anyhow!(
            "an answer is longer than its buffer"
        ))?;
        rt.stdout().write_all(&out[..length])?;
    }
    Ok(())
}
