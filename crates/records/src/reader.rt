// A reader of a campaign file.
ghost use Rattle.std.specs.Prelude.{◌≡◌, ◌+◌, ◌^◌, ◌<◌, length, ◌==◌};

// How far a file has been read: what is left of it, and the bytes before that.
#[derive(Clone, Copy)]
pub struct Reader<'a> {
    pub(crate) rest: &'a [u8],
    pub(crate) place: usize,
    ghost inside: { place + length rest.now < 2 ^ 64 },
}

impl<'a> Reader<'a> {
    // How many bytes have been read; the byte that comes next has this number.
    pub fn place(&self) -> usize
        ensures { result ≡ self.now.place }
    {
        self.place
    }

    // Whether every byte has been read.
    pub fn at_end(&self) -> bool
        ensures { result ≡ (length self.now.rest.now == 0) }
    {
        self.rest.is_empty()
    }
}
