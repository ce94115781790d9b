// What the lines of the input work on.
use board::answers::Swept;
use board::boards::Board;
use board::saved::Saved;

// The board, what was saved of it last, and the answer of the last sweep.
#[derive(Drop)]
pub(crate) struct Session {
    pub(crate) board: Board,
    pub(crate) saved: Saved,
    pub(crate) swept: Swept,
}
