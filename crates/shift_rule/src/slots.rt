// Sets of slots.
ghost use Rattle.std.specs.Prelude.{◌≡◌, ℕ, ◌+◌, ◌≤◌, false, true, length, slice_index_or, slice_set};
ghost use Rattle.model.specs.Sheets.{horizon};

use model::limits::SLOTS;

// The slots, and the end of the last one. (A constant cannot call `usize::from`.)
pub const MARKS: usize = SLOTS as usize + 1;

// A set of slots, the end of the last one among them: a mark stands at each that is in it.
#[derive(Drop)]
pub struct Slots {
    // kept: fixed memory, since no call of a rule may ask for any
    pub(crate) marks: [bool; MARKS],
    ghost whole: { length marks ≡ horizon + 1 },
}

impl Slots {
    // No slot.
    pub(crate) fn none() -> Self
        ensures { (t : ℕ) → slice_index_or result.marks t false ≡ false }
    {
        Slots {
            marks: [false; MARKS],
        }
    }

    // Whether a slot is in the set.
    pub(crate) fn has(&self, t: u16) -> bool
        requires { t ≤ horizon }
        ensures { result ≡ slice_index_or self.now.marks t false }
    {
        self.marks[usize::from(t)]
    }

    // Adds a slot.
    pub(crate) fn add(&mut self, t: u16)
        requires { t ≤ horizon }
        ensures { self.new.marks ≡ slice_set self.old.marks t true }
    {
        self.marks[usize::from(t)] = true;
    }
}
