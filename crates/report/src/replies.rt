// The answers to commands.
use board::refusals::Refusal;
use model::intervals::Interval;

// A call was obeyed or refused; or what a question or a rule, told by its letter, answers; or the line is no command.
#[derive(Clone, Copy)]
pub enum Reply {
    Done,
    Refused(Refusal),
    Place(u32),
    Overfull { letter: char, interval: Interval },
    Squeezed { letter: char, row: usize },
    Narrowed,
    Quiet,
    Unknown,
}
