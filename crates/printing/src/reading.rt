//! How much of a page and of a script is read.
ghost use Rattle.std.specs.Prelude.{◌≡◌};
ghost use Rattle.printing.specs.FirstBytes.{FirstBytesDecide};

use crate::limits::{PAGE_MOST, SCRIPT_MOST};

/// How many bytes of a page and of a script are read at most.
#[derive(Clone, Copy)]
pub struct ReadMost {
    pub page: usize,
    pub script: usize,
}

/// One byte more than the longest page has and than the longest script has, so that a longer one is seen: these first bytes decide what is printed.
#[tactic(auto, using(crate::proofs::Enough::first_bytes_decide))]
pub fn read_most() -> ReadMost
    ensures page { result.page ≡ 54148 }
    ensures script { result.script ≡ 65537 }
    ensures decide { FirstBytesDecide result.page result.script }
{
    ReadMost {
        page: PAGE_MOST + 1,
        script: SCRIPT_MOST + 1,
    }
}
