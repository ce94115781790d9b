// Numbers: groups of seven bits, lowest first, one to a byte.
ghost use Rattle.std.specs.Prelude.{◌≡◌, ◌≤◌};
ghost use Rattle.records.specs.Numbers.{number_at};

use crate::faults::NumberFault;

// The number of at most `groups` groups at the front of `input`, and how many bytes it takes.
pub(crate) fn number(input: &[u8], groups: usize) -> Result<(u32, usize), NumberFault>
    requires { groups ≤ 4 }
    ensures { result ≡ number_at groups input.now }
{
    let mut value: u32 = 0;
    let mut weight: u32 = 1;
    let front = &input[..groups.min(input.len())];
    for (i, byte) in front.iter().enumerate() {
        value += u32::from(*byte % 128) * weight;
        if *byte < 128 {
            return Ok((value, i + 1));
        }
        weight *= 128;
    }
    if input.len() < groups {
        Err(NumberFault::Ends)
    } else {
        Err(NumberFault::TooLong)
    }
}
