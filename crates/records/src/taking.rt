// What comes next, read as far as it goes. A reader that met a fault may have moved.
ghost use Rattle.std.specs.Prelude.{◌≡◌, ◌^◌, ◌<◌, ◌≤◌, length, take, IfOk};
ghost use Rattle.records.specs.Records.{past, number_here, text_here, fields_here, record_here};
ghost use Rattle.records.specs.Reading.{spot, Takes, itself, said_by};

use crate::faults::{Misread, RecordFault};
use crate::numbers::number;
use crate::reader::Reader;
use crate::records::{Fields, Record};

// The most groups that a number of a file may have.
const GROUPS_MAX: usize = 3;

// The most bytes that a text may have.
const TEXT_MAX: u32 = 200;

impl<'a> Reader<'a> {
    // Goes past so many bytes, which are left of the input, and answers them.
    fn pass(&mut self, count: usize) -> &'a [u8]
        requires { count ≤ length self.old.rest.now }
        ensures bytes { result.now ≡ take count self.old.rest.now }
        ensures moved { spot self.new ≡ past count (spot self.old) }
    {
        let (bytes, rest) = self.rest.split_at(count);
        self.rest = rest;
        self.place += count;
        bytes
    }

    // The number here.
    pub(crate) fn take_number(&mut self) -> Result<u32, Misread>
        ensures exact { Takes itself number_here (spot self.old) result (spot self.new) }
        ensures small { IfOk result (λ v. v < 2 ^ 21) }
    {
        // kept: a From would be made for this one place, and be no plainer
        let byte = self.place;
        let (value, count) = number(self.rest, GROUPS_MAX).map_err(|fault| RecordFault::Number(
            fault,
        ).at(byte))?;
        self.pass(count);
        Ok(value)
    }

    // The text here: its length, then its bytes.
    pub(crate) fn take_text(&mut self) -> Result<&'a [u8], Misread>
        ensures { Takes (λ x. x.now) text_here (spot self.old) result (spot self.new) }
    {
        let byte = self.place;
        let count = self.take_number()?;
        if count > TEXT_MAX {
            return Err(RecordFault::LongText.at(byte));
        }
        // a usize has 64 bits, but From does not know it
        let count = count as usize;
        if count > self.rest.len() {
            return Err(RecordFault::TextPastEnd.at(byte));
        }
        Ok(self.pass(count))
    }

    // The six numbers of a test here.
    fn take_fields(&mut self) -> Result<Fields, Misread>
        ensures { Takes itself fields_here (spot self.old) result (spot self.new) }
    {
        Ok(Fields {
            profile: self.take_number()?,
            bearer: self.take_number()?,
            release: self.take_number()?,
            deadline: self.take_number()?,
            duration: self.take_number()?,
            demand: self.take_number()?,
        })
    }

    // The record here. Its kind is judged before anything after it is read.
    pub(crate) fn take_record(&mut self) -> Result<Record<'a>, Misread>
        ensures { Takes said_by record_here (spot self.old) result (spot self.new) }
    {
        let at = self.place;
        match self.take_number()? {
            0 => Ok(Record::Note {
                text: self.take_text()?,
                at,
            }),
            1 => Ok(Record::Test {
                fields: self.take_fields()?,
                label: self.take_text()?,
                at,
            }),
            _ => Err(RecordFault::Kind.at(at)),
        }
    }
}
