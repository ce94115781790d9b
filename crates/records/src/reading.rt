// What a reader reads. It moves past what it has read, and stays where it cannot be read.
ghost use Rattle.std.specs.Prelude.{◌≡◌, ◌^◌, ◌<◌, IfOk, MatchResult};
ghost use Rattle.std.specs.Fn.{FnOnceReturnsAtMut};
ghost use Rattle.records.specs.declared.reader.Reader.{Reader};
ghost use Rattle.records.specs.Records.{start, number_here, text_here, record_here};
ghost use Rattle.records.specs.Reading.{spot, Reads, itself, said_by};

use crate::faults::Misread;
use crate::reader::Reader;
use crate::records::Record;

impl<'a> Reader<'a> {
    // A reader at the first byte.
    pub fn new(input: &'a [u8]) -> Reader<'a>
        ensures { spot result ≡ start input.now }
    {
        Reader {
            rest: input,
            place: 0,
        }
    }

    // What is taken next by a reader that starts from here; where it met a fault, this one stays.
    fn read<T: Drop, F: FnOnce(&mut Reader<'a>) -> Result<T, Misread>>(
        &mut self,
        take: F,
    ) -> Result<T, Misread>
        requires { F.IsAlwaysCallable take }
        ensures { (after : Reader) × FnOnceReturnsAtMut F.FnOnce take self.old result after × MatchResult result (λ _. self.new ≡ after) (λ _. self.new ≡ self.old) }
    {
        let mut ahead = *self;
        let taken = take(&mut ahead)?;
        *self = ahead;
        Ok(taken)
    }

    // The number that comes next.
    pub fn number(&mut self) -> Result<u32, Misread>
        ensures exact { Reads itself number_here (spot self.old) result (spot self.new) }
        ensures small { IfOk result (λ v. v < 2 ^ 21) }
    {
        self.read(Reader::take_number)
    }

    // The text that comes next, as a part of the input.
    pub fn text(&mut self) -> Result<&'a [u8], Misread>
        ensures { Reads (λ x. x.now) text_here (spot self.old) result (spot self.new) }
    {
        self.read(Reader::take_text)
    }

    // The record that comes next, its text as a part of the input.
    pub fn record(&mut self) -> Result<Record<'a>, Misread>
        ensures { Reads said_by record_here (spot self.old) result (spot self.new) }
    {
        self.read(Reader::take_record)
    }
}
