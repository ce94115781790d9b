// Reading a line.
ghost use Rattle.std.specs.Prelude.{◌≡◌, MatchBool, slice_index};
ghost use Rattle.commands.specs.Commands.{named, Reads, Ends};
ghost use Rattle.commands.specs.Taking.{left};

use crate::commands::{Command, Line};
use crate::words::Words;
use board::bookings::Test;
use std::str::from_utf8;

// The command of a name, given the words after it, no fewer and no more.
fn command(name: &str, mut words: Words<'_>) -> Option<Command>
    ensures { result ≡ named name.now (left words.entry) }
{
    let command = match name {
        "build" => Command::Build(words.number()?),
        "enter" => Command::Enter(Test {
            pair: words.pair()?,
            release: words.number()?,
            deadline: words.number()?,
            duration: words.number()?,
            demand: words.number()?,
        }),
        "withdraw" => Command::Withdraw(words.pair()?),
        "rebook" => Command::Rebook {
            pair: words.pair()?,
            release: words.number()?,
            deadline: words.number()?,
        },
        "place" => Command::Place(words.pair()?),
        "apply" => Command::Apply(words.letter()?),
        "sweep" => Command::Sweep,
        "show" => Command::Show,
        _ => return None,
    };
    words.whole(command)
}

// Whether a line begins with #.
fn is_note(line: &[u8]) -> bool
    ensures { MatchBool result (slice_index line.now 0 ≡ 35) (¬ (slice_index line.now 0 ≡ 35)) }
{
    line.starts_with(b"#")
}

// What a line of bytes is, which has no end of line.
pub fn read(line: &[u8]) -> Line
    ensures { Reads line.now result }
{
    if is_note(line) {
        return Line::Nothing;
    }
    let Ok(text) = from_utf8(line) else {
        return Line::Unknown;
    };
    let mut words = Words { rest: text };
    let Some(name) = words.word() else {
        return Line::Nothing;
    };
    command(name, words).map_or(Line::Unknown, Line::Says)
}

// A line without its end, if it has one.
pub fn without_end(line: &[u8]) -> &[u8]
    ensures { Ends line.now result.now }
{
    line.strip_suffix(b"\n").unwrap_or(line)
}
