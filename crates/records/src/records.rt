// Records: what a campaign file holds after its header.

// The six numbers of a test, in the order of the file.
#[derive(Clone, Copy)]
pub struct Fields {
    pub profile: u32,
    pub bearer: u32,
    pub release: u32,
    pub deadline: u32,
    pub duration: u32,
    pub demand: u32,
}

// A record, its text a part of the input. It begins at the byte `at`.
#[derive(Clone, Copy)]
pub enum Record<'a> {
    Note {
        text: &'a [u8],
        at: usize,
    },
    Test {
        fields: Fields,
        label: &'a [u8],
        at: usize,
    },
}
