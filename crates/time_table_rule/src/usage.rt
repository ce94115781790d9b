// The usage of every slot of a sheet.
ghost use Rattle.std.specs.Prelude.{◌≡◌, ℕ, ◌+◌, ◌<◌, ◌≤◌, ◌&&◌, length, if◌then◌else◌, nat_le, nat_lt, slice_index};
ghost use Rattle.sheet.specs.Listed.{meant};
ghost use Rattle.time_table_rule.specs.Lines.{UsageLine, Peak, NoneAbove};

use sheet::lists::Listed;

// A sheet, the usage of each of its slots by fixed parts, and a number that no usage is above.
#[derive(Clone, Copy)]
pub(crate) struct Usage<'a> {
    pub(crate) sheet: Listed<'a>,
    pub(crate) line: &'a [u32],
    pub(crate) peak: u32,
    ghost used: { UsageLine (meant sheet) line.now },
    ghost highest: { NoneAbove peak line.now },
}

impl<'a> Usage<'a> {
    // A sheet with a line of its usages, and the highest of them.
    pub(crate) fn of(sheet: Listed<'a>, line: &'a [u32]) -> Self
        requires { UsageLine (meant sheet) line.now }
        ensures { (meant result.sheet ≡ meant sheet.entry) × (Peak line.now (length line.now) result.peak) }
    {
        Usage {
            sheet,
            line,
            peak: peak(line),
        }
    }
}

// Adds `by` in the slots from `from` to before `to`: in none where `to` comes first, as with an entry that has no fixed part.
fn raise(line: &mut [u32], from: usize, to: usize, by: u32)
    requires { (to ≤ length line.old) × ((t : ℕ) → t < length line.old → slice_index line.old t + by < 4294967296) }
    ensures { (t : ℕ) → t < length line.old → slice_index line.new t ≡ slice_index line.old t + (if nat_le from t && nat_lt t to then by else 0) }
{
    if from < to {
        for usage in &mut line[from..to] {
            *usage += by;
        }
    }
}

// The usage of every slot by the fixed parts of the entries.
// kept: a rule of the project asks for an array of 4,032 slots, all zero at first, which one function makes and fills.
pub(crate) fn usage_line(sheet: Listed<'_>) -> [u32; 4032]
    ensures { UsageLine (meant sheet.entry) result }
{
    let mut line = [0; 4032];
    for e in sheet.entries {
        let from = usize::from(e.deadline - e.duration);
        let to = usize::from(e.release + e.duration);
        raise(&mut line, from, to, u32::from(e.demand));
    }
    line
}

// The highest usage of a line.
fn peak(line: &[u32]) -> u32
    ensures { Peak line.now (length line.now) result }
{
    line.iter().copied().max().unwrap_or(0)
}
