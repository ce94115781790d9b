// A row of the board: one booked test.
ghost use Rattle.std.specs.Prelude.{◌≡◌};
ghost use Rattle.model.specs.Changes.{reset, rebooked, narrowed};

use crate::windows::Window;

// A subscriber profile and a bearer identity. No two rows of a board have the same pair.
#[derive(Clone, Copy, PartialEq, Eq, Default)]
pub struct Pair {
    pub profile: u32,
    pub bearer: u32,
}

// A booked test: how long it lasts, how many channels it takes, its window as entered, and the present one.
#[derive(Clone, Copy, Default)]
pub struct Row {
    pub pair: Pair,
    pub duration: u16,
    pub demand: u16,
    pub entered: Window,
    pub present: Window,
}

impl Row {
    // Makes the present window the entered one again.
    pub fn reset(&mut self)
        ensures { self.new ≡ reset self.old }
    {
        self.present = self.entered;
    }

    // Gives the row a new window, as entered and as present.
    pub fn rebook(&mut self, window: Window)
        ensures { self.new ≡ rebooked window self.old }
    {
        *self = Row {
            entered: window,
            present: window,
            ..*self
        };
    }

    // Gives the row a new present window.
    pub fn narrow(&mut self, window: Window)
        ensures { self.new ≡ narrowed window self.old }
    {
        self.present = window;
    }
}
