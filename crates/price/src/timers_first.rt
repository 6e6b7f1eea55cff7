//! Kind 2, timers first: compared by timers, and on equal timers by wires.
ghost use Rattle.price.specs.TimersFirst.{timers_first};
ghost use Rattle.price.specs.KindLaws.{timers_first_laws};
ghost use Rattle.std.proofs.Common.{refl, rules};

use crate::Price;
use crate::values::TimersFirst;

impl Price for TimersFirst {
    ghost kind = { timers_first };

    const PAGE_NUMBER: u8 = 2;

    ghost PAGE_NUMBER = { timers_first.number };

    ghost lawful = { timers_first_laws };

    ghost numbered = { refl };

    ghost small = { Prim.search rules };

    fn zero() -> TimersFirst {
        TimersFirst {
            timers: 0,
            wires: 0,
        }
    }

    // A wires sum stops alone; a timers sum that is too great takes the wires to their end too, or the order could turn.
    fn join(self, other: TimersFirst) -> TimersFirst {
        match self.timers.checked_add(other.timers) {
            Some(timers) => TimersFirst {
                timers,
                wires: self.wires.saturating_add(other.wires),
            },
            None => TimersFirst {
                timers: u32::MAX,
                wires: u32::MAX,
            },
        }
    }

    fn less(self, other: TimersFirst) -> bool {
        self < other
    }

    fn from_field(bits: u32) -> TimersFirst {
        TimersFirst {
            timers: bits >> 16,
            wires: bits & 0xffff,
        }
    }

    fn print_word(self) -> u64 {
        u64::from(self.timers) << 32 | u64::from(self.wires)
    }
}
