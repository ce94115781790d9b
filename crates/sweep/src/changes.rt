// What comes of an application, or of a round, that goes through.

// All was quiet; or some window was narrowed. Of several together, the greatest tells what came of all.
#[derive(Clone, Copy, PartialEq, Eq, PartialOrd, Ord)]
pub(crate) enum Change {
    Quiet,
    Narrowed,
}
