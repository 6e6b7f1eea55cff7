//! A division of modules between the boards A and B, as a sides word.

// A bit for each module, module 0 the most significant, 1 for board B.
#[derive(Clone, Copy)]
pub(crate) struct Sides {
    pub(crate) word: u64,
}

// How many divisions of so many modules there are. Trials have at most 7.
pub(crate) fn division_count(modules: usize) -> u64 {
    1 << modules.min(63)
}

impl Sides {
    // A division for each number below their count: module m is on B where bit m of the number is 1.
    pub(crate) fn numbered(number: u64) -> Sides {
        Sides {
            word: number.reverse_bits(),
        }
    }

    // Whether a module is on board B.
    pub(crate) fn is_on_b(self, module: usize) -> bool {
        module < 64 && self.word & (1 << (63 - module)) != 0
    }

    // Whether two modules are on different boards.
    pub(crate) fn parts(self, a: usize, b: usize) -> bool {
        self.is_on_b(a) != self.is_on_b(b)
    }
}
