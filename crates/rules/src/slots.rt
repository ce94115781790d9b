// One slot.
ghost use Rattle.std.specs.Prelude.{◌<◌};
ghost use Rattle.model.specs.Sheets.{horizon};

// A slot of the horizon, as evidence: it tells the interval from it to the next.
#[derive(Clone, Copy)]
pub struct Slot {
    pub at: u16,
    ghost inside: { at < horizon },
}
