// What is left of a line.

// The text after the words that were taken.
#[derive(Clone, Copy)]
pub struct Words<'a> {
    pub(crate) rest: &'a str,
}
