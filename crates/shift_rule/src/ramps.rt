// The energies of all entries along one side of an interval, from ramps made once.
ghost use Rattle.std.specs.Prelude.{◌≡◌, ℕ, ◌+◌, ◌*◌, ◌<◌, ◌≤◌};
ghost use Rattle.model.specs.Sheets.{rows_max};
ghost use Rattle.sheet.specs.Listed.{meant};
ghost use Rattle.shift_rule.specs.Ramps.{Low, Energies, rise, climbed as on_ramps};

use crate::sides::Side;
use model::limits::ROWS_MAX;
use sheet::lists::Listed;

// As one end of an interval moves away from the other, the energy of an entry stays 0 up to an offset, rises by the demand
// a slot for as many slots as the length says, and then stays.
#[derive(Clone, Copy)]
pub struct Ramp {
    pub(crate) offset: u16,
    pub(crate) length: u16,
    pub(crate) demand: u16,
}

// Ramps, of which the first `count` places have one.
// kept: tried as one array of ramps, in a plain program with the same sum, and not in `plan`: over 60 ramps it took 1.9 times as many
// instructions, since eight ramps at a time are added only from arrays side by side, and S has no such room below the bar of speed.
#[derive(Drop)]
pub struct Slopes {
    pub(crate) count: usize,
    pub(crate) offsets: [u16; ROWS_MAX],
    pub(crate) lengths: [u16; ROWS_MAX],
    pub(crate) demands: [u16; ROWS_MAX],
}

// Ramps, and a top as high as all of them climb together.
#[derive(Drop)]
pub struct Ramps {
    pub(crate) slopes: Slopes,
    pub(crate) top: u32,
    ghost low: { Low slopes top },
}

impl Ramps {
    // No ramp yet.
    fn flat() -> Self
        ensures { result.slopes.count ≡ 0 }
    {
        Ramps {
            slopes: Slopes {
                count: 0,
                offsets: [0; ROWS_MAX],
                lengths: [0; ROWS_MAX],
                demands: [0; ROWS_MAX],
            },
            top: 0,
        }
    }

    // Adds a ramp, unless it rises nowhere.
    fn push(&mut self, ramp: Ramp)
        requires room { self.old.slopes.count < rows_max }
        requires small { ramp.demand * ramp.length ≤ 16511040 }
        ensures count { self.new.slopes.count ≤ self.old.slopes.count + 1 }
        ensures climbs { (far : ℕ) → on_ramps self.new.slopes far ≡ on_ramps self.old.slopes far + rise ramp far }
    {
        if ramp.length == 0 {
            return;
        }
        let slopes = &mut self.slopes;
        let place = slopes.count;
        slopes.offsets[place] = ramp.offset;
        slopes.lengths[place] = ramp.length;
        slopes.demands[place] = ramp.demand;
        slopes.count = place + 1;
        self.top += u32::from(ramp.demand) * u32::from(ramp.length);
    }

    // The energies at a distance on all ramps. Past the last ramp nothing climbs, so that whole groups of eight can be added.
    pub(crate) fn climbed(&self, far: u16) -> u32
        ensures { result ≡ on_ramps self.now.slopes far }
    {
        // kept: a chain over three arrays side by side, that goes on in whole groups, is no plainer.
        let slopes = &self.slopes;
        let mut sum: u32 = 0;
        for k in 0..slopes.count.next_multiple_of(8) {
            sum += u32::from(slopes.demands[k])
                * u32::from(far.saturating_sub(slopes.offsets[k]).min(slopes.lengths[k]));
        }
        sum
    }

    // The ramps of the intervals that have a side in common.
    pub(crate) fn of<S: Side>(sheet: Listed<'_>, side: &S) -> Self
        ensures { Energies (S.has side.now) (meant sheet.entry) result.slopes }
    {
        let mut ramps = Ramps::flat();
        for e in sheet.entries {
            ramps.push(side.ramp(*e));
        }
        ramps
    }
}
