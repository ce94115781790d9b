// The calls that may change a board, each followed by what it answers.
use crate::sessions::Session;
use board::answers::{Effect, Swept, Verdict};
use board::boards::Board;
use board::bookings::Test;
use board::places::place;
use board::refusals::Refusal;
use elastic_rule::rule::Elastic;
use letters::lettered::apply_by_letter;
use model::rows::Pair;
use rules::evidence::Tells;
use rules::rule::Rule;
use shift_rule::shifts::Shift;
use std::fmt::Display;
use std::{fmt, io};
use sweep::applying::apply;
use sweep::sweeping::sweep;
use time_table_rule::rule::TimeTable;

// Prints what a call answers, or by which number it is refused.
fn show_answer<T: Display + Drop>(rt: &HostRuntime, answer: Result<T, Refusal>) -> io::Result<()> {
    match answer {
        Ok(value) => println!(rt; "{value}"),
        Err(refusal) => println!(rt; "refused {}", refusal.number()),
    }
}

fn show_call(rt: &HostRuntime, answer: Result<(), Refusal>) -> io::Result<()> {
    show_answer(rt, answer.map(|()| "ok"))
}

// The capacity and the present windows of a board, with which a line ends.
#[derive(Clone, Copy)]
struct Windows<'a>(&'a Board);

impl<'a> Display for Windows<'a> {
    fn fmt<W: fmt::Write>(&self, f: &mut fmt::Formatter<W>) -> fmt::Result {
        write!(f, ", C {}", self.0.capacity())?;
        for row in self.0.rows() {
            write!(f, " ({},{})", row.present.release, row.present.deadline)?;
        }
        Ok(())
    }
}

// What an application did.
#[derive(Drop)]
struct Did<V: Tells>(Effect<V>);

impl<V: Tells> Display for Did<V> {
    fn fmt<W: fmt::Write>(&self, f: &mut fmt::Formatter<W>) -> fmt::Result {
        match &self.0 {
            Effect::Overfull(evidence) => {
                let interval = evidence.interval();
                write!(f, "overfull {} {}", interval.t1, interval.t2)
            }
            Effect::Squeezed(row) => write!(f, "squeezed {row}"),
            Effect::Narrowed => write!(f, "narrowed"),
            Effect::Quiet => write!(f, "quiet"),
        }
    }
}

// How a sweep ended, and its rounds.
#[derive(Clone, Copy)]
struct Ended(Swept);

impl Display for Ended {
    fn fmt<W: fmt::Write>(&self, f: &mut fmt::Formatter<W>) -> fmt::Result {
        match self.0.verdict {
            Verdict::Settled => write!(f, "settled")?,
            Verdict::Overfull { letter, interval } => {
                write!(f, "overfull {letter} {} {}", interval.t1, interval.t2)?
            }
            Verdict::Squeezed { letter, row } => write!(f, "squeezed {letter} {row}")?,
        }
        write!(f, " in {}", self.0.rounds)
    }
}

// Prints what an application did, and the windows that it left.
fn show_effect<V: Tells + Drop>(
    rt: &HostRuntime,
    board: &Board,
    effect: Effect<V>,
) -> io::Result<()> {
    println!(rt; "{}{}", Did(effect), Windows(board))
}

fn show_rule<R: Rule>(rt: &HostRuntime, board: &mut Board, rule: &R) -> io::Result<()> {
    let effect = apply(board, rule);
    show_effect(rt, board, effect)
}

fn show_letter(rt: &HostRuntime, board: &mut Board, letter: char) -> io::Result<()> {
    match apply_by_letter(board, letter) {
        Ok(effect) => show_effect(rt, board, effect),
        Err(refusal) => show_call(rt, Err(refusal)),
    }
}

// Makes the call with numbers that a word names; says false if it names none, or if the numbers are too many or too few.
pub(crate) fn call(
    rt: &HostRuntime,
    board: &mut Board,
    word: &str,
    given: &[u32],
) -> io::Result<bool> {
    let shown = match (word, given) {
        ("build", &[capacity]) => show_call(rt, board.build(capacity)),
        ("enter", &[profile, bearer, release, deadline, duration, demand]) => {
            let test = Test {
                pair: Pair { profile, bearer },
                release,
                deadline,
                duration,
                demand,
            };
            show_call(rt, board.enter(test))
        }
        ("withdraw", &[profile, bearer]) => {
            show_call(rt, board.withdraw(Pair { profile, bearer }))
        }
        ("rebook", &[profile, bearer, release, deadline]) => {
            let pair = Pair { profile, bearer };
            show_call(rt, board.rebook(pair, release, deadline))
        }
        ("place", &[profile, bearer]) => show_answer(rt, place(Pair { profile, bearer })),
        _ => return Ok(false),
    };
    shown?;
    Ok(true)
}

// Applies the rule that a word names, by itself or by its letter; says false if it names none.
pub(crate) fn narrow(rt: &HostRuntime, board: &mut Board, word: &str) -> io::Result<bool> {
    let shown = match word {
        "rule T" => show_rule(rt, board, &TimeTable),
        "rule E" => show_rule(rt, board, &Elastic),
        "rule S" => show_rule(rt, board, &Shift),
        "letter T" => show_letter(rt, board, 'T'),
        "letter E" => show_letter(rt, board, 'E'),
        "letter S" => show_letter(rt, board, 'S'),
        "letter t" => show_letter(rt, board, 't'),
        "letter X" => show_letter(rt, board, 'X'),
        _ => return Ok(false),
    };
    shown?;
    Ok(true)
}

// Sweeps by the rules that a word names, in this order; says false if it names none.
pub(crate) fn settle(rt: &HostRuntime, session: &mut Session, word: &str) -> io::Result<bool> {
    let board = &mut session.board;
    session.swept = match word {
        "sweep T E S" => sweep(board, &TimeTable, &Elastic, &Shift),
        "sweep S E T" => sweep(board, &Shift, &Elastic, &TimeTable),
        "sweep E E E" => sweep(board, &Elastic, &Elastic, &Elastic),
        _ => return Ok(false),
    };
    println!(rt; "{}{}", Ended(session.swept), Windows(&session.board))?;
    Ok(true)
}

// Saves or restores, as a word says; says false if it says neither.
pub(crate) fn keep(rt: &HostRuntime, session: &mut Session, word: &str) -> io::Result<bool> {
    match word {
        "save" => session.saved = session.board.save(),
        "restore" => session.board.restore(&session.saved),
        _ => return Ok(false),
    }
    println!(rt; "ok{}", Windows(&session.board))?;
    Ok(true)
}
