// The place of a pair among all pairs.
ghost use Rattle.board.specs.Calls.{Places};

use crate::refusals::Refusal;
use model::limits::{BEARER_MAX, BEARER_MIN, PROFILE_MAX};
use model::rows::Pair;

// The place of a pair, from 0 to 2815, in the order of profiles and then of bearers.
pub fn place(pair: Pair) -> Result<u32, Refusal>
    ensures { Places pair result }
{
    if pair.profile > PROFILE_MAX {
        return Err(Refusal::Profile);
    }
    if !(BEARER_MIN..=BEARER_MAX).contains(&pair.bearer) {
        return Err(Refusal::Bearer);
    }
    Ok(pair.profile * (BEARER_MAX + 1 - BEARER_MIN) + pair.bearer - BEARER_MIN)
}
