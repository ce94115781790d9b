// The replies to the calls, from what the calls answer.
ghost use Rattle.std.specs.Prelude.{◌≡◌};
ghost use Rattle.report.specs.Replies.{called, placed, applied};

use crate::replies::Reply;
use board::answers::Effect;
use board::refusals::Refusal;
use model::intervals::Interval;

impl Reply {
    // To a call that is obeyed or refused.
    pub fn called(answer: Result<(), Refusal>) -> Reply
        ensures { result ≡ called answer }
    {
        answer.map_or_else(Reply::Refused, |()| Reply::Done)
    }

    // To the question for the place of a pair.
    pub fn placed(answer: Result<u32, Refusal>) -> Reply
        ensures { result ≡ placed answer }
    {
        answer.map_or_else(Reply::Refused, Reply::Place)
    }

    // To the application of the rule of a letter.
    // kept: the letter goes into two of the five replies, so that no From can make them of the answer alone.
    pub fn applied(letter: char, answer: Result<Effect<Interval>, Refusal>) -> Reply
        ensures { result ≡ applied letter answer }
    {
        match answer {
            Ok(Effect::Overfull(interval)) => Reply::Overfull { letter, interval },
            Ok(Effect::Squeezed(row)) => Reply::Squeezed { letter, row },
            Ok(Effect::Narrowed) => Reply::Narrowed,
            Ok(Effect::Quiet) => Reply::Quiet,
            Err(why) => Reply::Refused(why),
        }
    }
}
