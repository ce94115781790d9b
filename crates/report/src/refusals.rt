// Why a report is refused.
ghost use Rattle.std.specs.Prelude.{◌≡◌};
ghost use Rattle.report.specs.Buffers.{number_of};

#[derive(Clone, Copy, PartialEq, Eq)]
pub enum Refusal {
    // the buffer is shorter than the text
    Short,
}

impl Refusal {
    // The number by which the refusal is reported.
    pub fn number(self) -> u8
        ensures { result ≡ number_of self }
    {
        self as u8 + 18
    }
}
