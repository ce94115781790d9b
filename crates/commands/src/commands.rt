// The commands, and what a line can be.
use board::bookings::Test;
use model::rows::Pair;

// A call on a board, or a question about it. Any numbers may be given: the call judges them.
#[derive(Clone, Copy)]
pub enum Command {
    Build(u32),
    Enter(Test),
    Withdraw(Pair),
    Rebook {
        pair: Pair,
        release: u32,
        deadline: u32,
    },
    Place(Pair),
    Apply(char),
    Sweep,
    Show,
}

// A line is passed over, or says a command, or is neither.
// kept: a `Result<Option<Command>, Unknown>` is no plainer, since it has no name for a line that is passed over
#[derive(Clone, Copy)]
pub enum Line {
    Nothing,
    Unknown,
    Says(Command),
}
