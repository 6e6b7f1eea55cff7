//! Kind 3, widest: a number, joined by taking the greater.
ghost use Rattle.price.specs.Widest.{widest as widest_kind};
ghost use Rattle.price.specs.KindLaws.{widest_laws};
ghost use Rattle.std.proofs.Common.{refl, rules};

use crate::Price;
use crate::values::Widest;

impl Price for Widest {
    ghost kind = { widest_kind };

    const PAGE_NUMBER: u8 = 3;

    ghost PAGE_NUMBER = { widest_kind.number };

    ghost lawful = { widest_laws };

    ghost numbered = { refl };

    ghost small = { Prim.search rules };

    fn zero() -> Widest {
        Widest { width: 0 }
    }

    fn join(self, other: Widest) -> Widest {
        Widest {
            width: self.width.max(other.width),
        }
    }

    fn less(self, other: Widest) -> bool {
        self < other
    }

    fn from_field(bits: u32) -> Widest {
        Widest {
            width: u64::from(bits),
        }
    }

    fn print_word(self) -> u64 {
        self.width
    }
}
