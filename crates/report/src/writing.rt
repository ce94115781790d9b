// Writing at the end of a text.
ghost use Rattle.std.specs.Prelude.{◌≡◌, ℕ, ◌+◌, ◌≤◌, List, ◌++◌, length, codes, encode_utf8};
ghost use Rattle.arrayvec.specs.ArrayString.{array_string_len};
ghost use Rattle.report.specs.Lines.{overfull_words, squeezed_words};

use crate::texts::{REPORT_MAX, Text};
use itoa::{Buffer, Integer};
use model::intervals::Interval;

// What can be written at the end of a text.
// kept: each contract asks for the room of its own text, which is another number each time.
// kept: tried `impl Display` with `write!`, and the proof did not close: no clause says when a formatter fails, so after an `Err` of
// `write!` it stays open that the buffer is shorter than the text
pub(crate) trait Lines {
    // The bytes of a value.
    ghost lines: { Self → List ℕ };

    // No value has more bytes.
    ghost most: { ℕ };

    fn write(&self, text: &mut Text)
        requires { array_string_len text.old + most ≤ REPORT_MAX }
        ensures bytes { text.new.bytes ≡ text.old.bytes ++ lines self.now }
        ensures len { array_string_len text.new ≤ array_string_len text.old + most };
}

// A number in base ten, and the character after it.
// kept: a char in place of the text of one byte may take four bytes, so that less would be known of the length.
pub(crate) fn figure<I: Integer>(text: &mut Text, n: I, after: &str)
    requires one { length after.now ≡ 1 }
    requires room { array_string_len text.old + (I.MAX_STR_LEN + 1) ≤ REPORT_MAX }
    ensures bytes { text.new.bytes ≡ text.old.bytes ++ (I.text n ++ after.now) }
    ensures len { array_string_len text.new ≤ array_string_len text.old + (I.MAX_STR_LEN + 1) }
{
    text.push_str(Buffer::new().format(n));
    text.push_str(after);
}

// The letter of a rule, and a space.
fn mark(text: &mut Text, letter: char)
    requires { array_string_len text.old + 5 ≤ REPORT_MAX }
    ensures bytes { text.new.bytes ≡ text.old.bytes ++ (encode_utf8 letter ++ codes " ") }
    ensures len { array_string_len text.new ≤ array_string_len text.old + 5 }
{
    text.push(letter);
    text.push_str(" ");
}

// The interval whose demand is too great, by the rule of a letter, and the character after it.
pub(crate) fn overfull(text: &mut Text, letter: char, interval: Interval, after: &str)
    requires one { length after.now ≡ 1 }
    requires room { array_string_len text.old + 60 ≤ REPORT_MAX }
    ensures bytes { text.new.bytes ≡ text.old.bytes ++ overfull_words letter interval after.now }
    ensures len { array_string_len text.new ≤ array_string_len text.old + 60 }
{
    text.push_str("OVERFULL ");
    mark(text, letter);
    figure(text, interval.t1, " ");
    figure(text, interval.t2, after);
}

// The row whose window is too short, by the rule of a letter, and the character after it.
pub(crate) fn squeezed(text: &mut Text, letter: char, row: usize, after: &str)
    requires one { length after.now ≡ 1 }
    requires room { array_string_len text.old + 60 ≤ REPORT_MAX }
    ensures bytes { text.new.bytes ≡ text.old.bytes ++ squeezed_words letter row after.now }
    ensures len { array_string_len text.new ≤ array_string_len text.old + 60 }
{
    text.push_str("SQUEEZED ");
    mark(text, letter);
    figure(text, row, after);
}
