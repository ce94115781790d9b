// The first crowded slot.
ghost use Rattle.std.specs.Option.{option_map};
ghost use Rattle.model.specs.Rules.{Named};
ghost use Rattle.model.specs.TimeTable.{Crowded};
ghost use Rattle.sheet.specs.Listed.{meant};
ghost use Rattle.time_table_rule.specs.Lines.{FirstAbove};
ghost use Rattle.time_table_rule.specs.Shown.{told};

use crate::usage::Usage;
use rules::slots::Slot;

impl<'a> Usage<'a> {
    // The first slot whose usage is above the capacity.
    fn first_above(&self) -> Option<Slot>
        ensures { FirstAbove self.now.sheet.capacity self.now.line.now result }
    {
        let capacity = u32::from(self.sheet.capacity);
        let t = self.line.iter().position(|usage| *usage > capacity)?;
        // a slot's number is below 4,032, so the cast loses nothing, and try_from would add a branch that is never taken
        Some(Slot { at: t as u16 })
    }

    // The same where the highest usage may say it: where that is not above the capacity, there is nothing to look for.
    pub(crate) fn first_crowded(&self) -> Option<Slot>
        ensures { Named (Crowded (meant self.now.sheet)) (option_map told result) }
    {
        if self.peak > u32::from(self.sheet.capacity) {
            self.first_above()
        } else {
            None
        }
    }
}
