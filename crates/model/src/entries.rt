// An entry of a sheet: what a rule may know of a row.

// An entry may run from its release to before its deadline; it lasts its duration, and takes its demand in each of its slots.
// kept: no invariant says that it lies within the limits, since sheets of others make entries too, and it would ask more of them.
#[derive(Clone, Copy, Default)]
pub struct Entry {
    pub release: u16,
    pub deadline: u16,
    pub duration: u16,
    pub demand: u16,
}
