// The rules by their letters.
ghost use Rattle.std.specs.Prelude.{◌≡◌, List};
ghost use Rattle.board.specs.Held.{bookings};
ghost use Rattle.runs.specs.Applying.{told_as};
ghost use Rattle.runs.specs.Runs.{AppliesByLetter};
ghost use Rattle.runs.specs.Sweeping.{Application};

use board::answers::Effect;
use board::boards::Board;
use board::refusals::Refusal;
use elastic_rule::rule::Elastic;
use model::intervals::Interval;
use rules::evidence::Tells;
use shift_rule::shifts::Shift;
use sweep::applying::apply;
use time_table_rule::rule::TimeTable;

// An effect with its evidence told as an interval.
// kept: a map over the effect that takes a closure would be as long, and is wanted here alone, so that it is no plainer.
fn told<V: Tells + Drop>(effect: Effect<V>) -> Effect<Interval>
    ensures { result ≡ told_as V.Tells.told effect }
{
    match effect {
        Effect::Overfull(evidence) => Effect::Overfull(evidence.interval()),
        Effect::Squeezed(row) => Effect::Squeezed(row),
        Effect::Narrowed => Effect::Narrowed,
        Effect::Quiet => Effect::Quiet,
    }
}

// Applies the rule that a letter names; any other letter is refused, and the board stays.
// kept: a rule of the project asks for a char against three literals; each arm has a rule of another type, so that no table holds them.
pub fn apply_by_letter(board: &mut Board, letter: char) -> Result<Effect<Interval>, Refusal>
    ensures { (chain : List Application) × AppliesByLetter letter (bookings board.old) chain result (bookings board.new) }
{
    match letter {
        'T' => Ok(told(apply(board, &TimeTable))),
        'E' => Ok(told(apply(board, &Elastic))),
        'S' => Ok(told(apply(board, &Shift))),
        _ => Err(Refusal::Letter),
    }
}
