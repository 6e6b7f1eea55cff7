//! Kind 1, wires: a number, joined by an addition that stops at the greatest.
ghost use Rattle.price.specs.Wires.{wires as wires_kind};
ghost use Rattle.price.specs.KindLaws.{wires_laws};
ghost use Rattle.std.proofs.Common.{refl, rules};

use crate::Price;
use crate::values::Wires;

impl Price for Wires {
    ghost kind = { wires_kind };

    const PAGE_NUMBER: u8 = 1;

    ghost PAGE_NUMBER = { wires_kind.number };

    ghost lawful = { wires_laws };

    ghost numbered = { refl };

    ghost small = { Prim.search rules };

    fn zero() -> Wires {
        Wires { count: 0 }
    }

    fn join(self, other: Wires) -> Wires {
        Wires {
            count: self.count.saturating_add(other.count),
        }
    }

    fn less(self, other: Wires) -> bool {
        self < other
    }

    fn from_field(bits: u32) -> Wires {
        Wires {
            count: u64::from(bits),
        }
    }

    fn print_word(self) -> u64 {
        self.count
    }
}
