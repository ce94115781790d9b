// Apply: what one rule does to a board.
ghost use Rattle.std.specs.Prelude.{◌≡◌};
ghost use Rattle.board.specs.Held.{bookings};
ghost use Rattle.runs.specs.Applying.{Applies, told_as, at_present};
ghost use Rattle.sweep.specs.Shown.{ShowsEvidence};

use crate::figuring::{all_figures, first_short};
use crate::presenting::present;
use crate::writing::{differ, write};
use board::answers::Effect;
use board::boards::Board;
use rules::evidence::Tells;
use rules::rule::Rule;

// Evidence on the present windows is answered as overfull. Else each row gets its two figures, all from the windows as found,
// unless they leave some row too short; then the first such row is answered. The windows stay in these two cases.
pub fn apply<R: Rule>(board: &mut Board, rule: &R) -> Effect<R::Evidence>
    ensures step { Applies (R.Rule.means rule.now) (bookings board.old) (told_as R.Evidence.Tells.told result) (bookings board.new) }
    ensures evidence { ShowsEvidence (R.Rule.shows rule.now (at_present (bookings board.old))) result }
{
    let sheet = present(board);
    // kept: the answer is no Result, so that ? has nothing to answer with
    let starts = match rule.judge(&sheet) {
        Ok(starts) => starts,
        Err(evidence) => return Effect::Overfull(evidence),
    };
    let windows = all_figures(rule, &sheet, &starts);
    if let Some(row) = first_short(board.rows(), &windows) {
        return Effect::Squeezed(row);
    }
    if !differ(board.rows(), &windows) {
        return Effect::Quiet;
    }
    write(board, &windows);
    Effect::Narrowed
}
