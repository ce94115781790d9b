// A window: the slots in which a test may run.

// The slots from the release to before the deadline.
#[derive(Clone, Copy, PartialEq, Eq, Default)]
pub struct Window {
    pub release: u16,
    pub deadline: u16,
}
