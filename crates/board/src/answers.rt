// The answers of apply and of sweep.
use model::intervals::Interval;

// What apply did: the rule had evidence that the sheet is overfull; or its figures leave a row, told by its number, too short;
// or some window was narrowed; or none changed.
// kept: a rule of the project asks for one enum, generic over the evidence.
#[derive(Clone, Copy)]
pub enum Effect<V> {
    Overfull(V),
    Squeezed(usize),
    Narrowed,
    Quiet,
}

// How a sweep ended: nothing more can be narrowed; or a rule, told by its letter, had evidence that an interval is overfull,
// or left a row, told by its number, too short.
// kept: a Result of an enum for the two ways to fail is no plainer, and these three cases are what a report prints.
#[derive(Clone, Copy)]
pub enum Verdict {
    Settled,
    Overfull { letter: char, interval: Interval },
    Squeezed { letter: char, row: usize },
}

// The answer of a sweep, with its number of rounds.
#[derive(Clone, Copy)]
pub struct Swept {
    pub verdict: Verdict,
    pub rounds: u32,
}
