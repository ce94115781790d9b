// What can be wrong with the bytes of a number or of a record.
ghost use Rattle.std.specs.Prelude.{◌≡◌};

// A number cannot be read.
#[derive(Clone, Copy, PartialEq, Eq)]
pub enum NumberFault {
    // The input ends before a group that is due.
    Ends,
    // The last group that a number may have announces another.
    TooLong,
}

// A record cannot be read.
#[derive(Clone, Copy, PartialEq, Eq)]
pub enum RecordFault {
    // One of its numbers cannot be read.
    Number(NumberFault),
    // It is neither a note nor a test.
    Kind,
    // Its text has more bytes than a text may have.
    LongText,
    // Its text has more bytes than are left of the input.
    TextPastEnd,
}

// A fault and its byte: where the number, the kind or the text's length begins.
#[derive(Clone, Copy, PartialEq, Eq)]
pub struct Misread {
    pub fault: RecordFault,
    pub byte: usize,
}

impl RecordFault {
    // The fault at a byte.
    pub(crate) fn at(self, byte: usize) -> Misread
        ensures { result ≡ record { fault = self; byte = byte } }
    {
        Misread { fault: self, byte }
    }
}
