// A test that is to be entered.
use model::rows::Pair;

// What enter is given: the pair, the window, how long the test lasts, and how many channels it takes. Any numbers may be given.
#[derive(Clone, Copy)]
pub struct Test {
    pub pair: Pair,
    pub release: u32,
    pub deadline: u32,
    pub duration: u32,
    pub demand: u32,
}
