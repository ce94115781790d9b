// A pass over the candidates of a sheet.
ghost use Rattle.sheet.specs.Listed.{meant};
ghost use Rattle.shift_rule.specs.Found.{Right};
ghost use Rattle.shift_rule.specs.Points.{GoneThrough};

use crate::slots::Slots;
use crate::subjects::Subject;
use model::intervals::Interval;
use model::limits::ROWS_MAX;

// The first interval of negative slack so far, if any, and the greatest start so far of each entry, at its place.
#[derive(Drop)]
pub struct Survey {
    pub(crate) first: Option<Interval>,
    // kept: an array by place, as the earliest starts of every rule are
    pub(crate) starts: [u16; ROWS_MAX],
}

// What a pass is over, what it has found so far, and the points that it has gone through: the slots of which all candidates that
// begin there, and all of the third kind that close there, are accounted for.
#[derive(Drop)]
pub struct Pass<'s, 'a> {
    pub(crate) subject: &'s Subject<'a>,
    pub(crate) found: Survey,
    pub(crate) begun: Slots,
    pub(crate) closed: Slots,
    ghost right: { ∥ Right (meant subject.now.movers.sheet) found ∥₁ },
    ghost gone: { ∥ GoneThrough (meant subject.now.movers.sheet) found begun closed ∥₁ },
}
