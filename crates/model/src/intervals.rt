// An interval of slots.

// The slots from t1 to before t2. Of two intervals, the one that starts sooner comes first, and of two that start together the shorter one.
#[derive(Clone, Copy, PartialEq, Eq, PartialOrd, Ord)]
pub struct Interval {
    pub t1: u16,
    pub t2: u16,
}
