// A round: rules applied in order, each to the board that the one before left.
ghost use Rattle.std.specs.Prelude.{◌≡◌, [], ◌∷◌};
ghost use Rattle.board.specs.Held.{bookings};
ghost use Rattle.sweep.specs.Rounds.{Steps, Rounds};

use crate::applying::apply;
use crate::changes::Change;
use board::answers::{Effect, Verdict};
use board::boards::Board;
use rules::evidence::Tells;
use rules::rule::Rule;

// One application; where the sweep ends by it, the verdict.
fn step<R: Rule>(board: &mut Board, rule: &R) -> Result<Change, Verdict>
    ensures { Steps (R.Rule.means rule.now) (bookings board.old) result (bookings board.new) }
{
    // kept: a verdict needs the letter of the rule, so that no From can make it of the effect alone
    match apply(board, rule) {
        Effect::Overfull(evidence) => Err(Verdict::Overfull {
            letter: rule.mark(),
            interval: evidence.interval(),
        }),
        Effect::Squeezed(row) => Err(Verdict::Squeezed {
            letter: rule.mark(),
            row,
        }),
        Effect::Narrowed => Ok(Change::Narrowed),
        Effect::Quiet => Ok(Change::Quiet),
    }
}

// One round of three rules.
pub(crate) fn round<X: Rule, Y: Rule, Z: Rule>(
    board: &mut Board,
    x: &X,
    y: &Y,
    z: &Z,
) -> Result<Change, Verdict>
    ensures { Rounds (X.Rule.means x.now ∷ (Y.Rule.means y.now ∷ (Z.Rule.means z.now ∷ []))) (bookings board.old) result (bookings board.new) }
{
    let first = step(board, x)?;
    let second = step(board, y)?;
    let third = step(board, z)?;
    Ok(first.max(second.max(third)))
}
