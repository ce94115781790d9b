// Sweep: rounds of three rules, until one of them fails or all of them are quiet.
ghost use Rattle.std.specs.Prelude.{◌+◌, ◌≤◌, [], ◌∷◌};
ghost use Rattle.board.specs.Held.{bookings};
ghost use Rattle.runs.specs.Sweeping.{SweepsTo, spare};
ghost use Rattle.runs.specs.Promise.{EveryRunKeepsItsPromise, EveryListOfCallsHasOneRun};

use crate::changes::Change;
use crate::rounds::round;
use board::answers::{Swept, Verdict};
use board::boards::Board;
use rules::rule::Rule;

// Applies the three rules in order, round after round. The answer is overfull or squeezed as soon as a rule says so, and settled
// after a round in which all three are quiet. What earlier applications narrowed stays narrowed.
// The clause `promise` says what holds after every list of calls on a newly built board, for all rules that keep the law.
pub fn sweep<X: Rule, Y: Rule, Z: Rule>(board: &mut Board, x: &X, y: &Y, z: &Z) -> Swept
    ensures step { SweepsTo (X.Rule.means x.now ∷ (Y.Rule.means y.now ∷ (Z.Rule.means z.now ∷ []))) (bookings board.old) result (bookings board.new) }
    ensures bound { result.rounds ≤ 1 + spare (bookings board.old) }
    ensures promise { (EveryRunKeepsItsPromise) × (EveryListOfCallsHasOneRun) }
{
    let mut passed = 0;
    loop {
        match round(board, x, y, z) {
            Ok(Change::Narrowed) => passed += 1,
            Ok(Change::Quiet) => return Swept {
                verdict: Verdict::Settled,
                rounds: passed + 1,
            },
            Err(verdict) => return Swept {
                verdict,
                rounds: passed + 1,
            },
        }
    }
}
