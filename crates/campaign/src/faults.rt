// What can be wrong with a campaign file, and where.
ghost use Rattle.std.specs.Prelude.{◌≡◌};
ghost use Rattle.campaign.specs.Faults.{cause_number, cause_layer, layer_number};
ghost use Rattle.campaign.specs.Loads.{unread_in, fault_at};

use board::refusals::Refusal;
use records::faults::{Misread, NumberFault, RecordFault};

// The layer that meets a fault, with the number by which it is reported.
#[derive(Clone, Copy, PartialEq, Eq)]
pub enum Layer {
    Numbers = 1,
    Records = 2,
    Campaign = 3,
}

impl Layer {
    // The number by which the layer is reported.
    pub fn number(self) -> u8
        ensures { result ≡ layer_number self }
    {
        self as u8
    }
}

// Why a file is not loaded.
#[derive(Clone, Copy, PartialEq, Eq)]
pub enum Cause {
    // A number or a record of it cannot be read.
    Record(RecordFault),
    // It announces more records than a file may have.
    TooManyRecords,
    // Bytes are left over after the last record.
    LeftOver,
    // The board refuses its capacity or one of its tests.
    Board(Refusal),
}

// A cause, the record that it was met in, counted from 1 with 0 for the header, and the byte, counted from 0.
// kept: an Option for the record would be no plainer, since the 0 is printed as it is.
#[derive(Clone, Copy, PartialEq, Eq)]
pub struct Fault {
    pub cause: Cause,
    pub record: u32,
    pub byte: usize,
}

impl Cause {
    // The number by which the cause is reported.
    // kept: a cause holds what the layers below it met, and an enum whose variants hold values has no numbers of its own.
    pub fn number(self) -> u8
        ensures { result ≡ cause_number self }
    {
        match self {
            Cause::Record(RecordFault::Number(NumberFault::Ends)) => 11,
            Cause::Record(RecordFault::Number(NumberFault::TooLong)) => 12,
            Cause::Record(RecordFault::Kind) => 13,
            Cause::Record(RecordFault::LongText) => 14,
            Cause::Record(RecordFault::TextPastEnd) => 15,
            Cause::TooManyRecords => 16,
            Cause::LeftOver => 17,
            Cause::Board(refusal) => refusal.number(),
        }
    }

    // The layer that met it.
    pub fn layer(self) -> Layer
        ensures { layer_number result ≡ cause_layer self }
    {
        match self {
            Cause::Record(RecordFault::Number(_)) => Layer::Numbers,
            Cause::Record(_) => Layer::Records,
            Cause::TooManyRecords | Cause::LeftOver | Cause::Board(_) => Layer::Campaign,
        }
    }

    // The cause, as met in a record at a byte.
    pub(crate) fn at(self, number: u32, byte: usize) -> Fault
        ensures { result ≡ fault_at number self byte }
    {
        Fault {
            cause: self,
            record: number,
            byte,
        }
    }
}

impl Fault {
    // A fault that was met in reading a record.
    // kept: the number of the record is wanted too, so that no From can make it of the misread alone.
    pub(crate) fn unread(number: u32, misread: Misread) -> Fault
        ensures { result ≡ unread_in number misread }
    {
        Cause::Record(misread.fault).at(number, misread.byte)
    }
}
