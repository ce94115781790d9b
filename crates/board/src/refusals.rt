// Why a call on the board is refused.
ghost use Rattle.std.specs.Prelude.{◌≡◌};
ghost use Rattle.board.specs.Refusals.{number_of};

// One case for each reason, in the order in which a call judges them; the first is reported as 1, and each other as one more.
#[derive(Clone, Copy, PartialEq, Eq)]
pub enum Refusal {
    Capacity,
    Profile,
    Bearer,
    Duration,
    Demand,
    Window,
    Taken,
    Full,
    Unknown,
    Letter,
}

impl Refusal {
    // The number by which the refusal is reported.
    pub fn number(self) -> u8
        ensures { result ≡ number_of self }
    {
        self as u8 + 1
    }
}
