//! Sets of modules below 64, one bit a module, module 0 the most significant.
#![tactic(auto)]

ghost use Rattle.std.specs.Prelude.{◌≡◌, ℕ, suc, ◌<◌, true, false, not, ◌&&◌, ◌||◌, length, Decides, ◌==◌, nat_le};
ghost use Rattle.std.specs.List.{slice_get};
ghost use Rattle.moduleset.specs.Words.{has as is_in, members, lone, opened_at};

/// A set of modules. A module number of 64 or more is in no set.
#[derive(Clone, Copy, PartialEq, Eq, Debug)]
pub struct ModuleSet {
    pub word: u64,
}

/// The modules whose bits are 1.
impl From<u64> for ModuleSet {
    ghost from_gives = { λ word set. set.word ≡ word };

    fn from(word: u64) -> ModuleSet {
        ModuleSet { word }
    }
}

impl ModuleSet {
    /// The set without modules.
    pub fn empty() -> ModuleSet
        ensures { (k : ℕ) → is_in result.word k ≡ false }
    {
        ModuleSet { word: 0 }
    }

    /// The modules at or past a number.
    pub fn at_or_past(first: usize) -> ModuleSet
        ensures { (k : ℕ) → k < 64 → is_in result.word k ≡ nat_le first k }
    {
        if first >= 64 {
            return ModuleSet::empty();
        }
        ModuleSet {
            word: u64::MAX >> first,
        }
    }

    /// Whether a module is in the set.
    pub fn has(self, number: u8) -> bool
        ensures { result ≡ is_in self.word number }
    {
        number < 64 && (self.word >> (63 - number)) & 1 == 1
    }

    /// The set with a module as well.
    pub fn with(self, number: u8) -> ModuleSet
        ensures { (k : ℕ) → k < 64 → is_in result.word k ≡ (is_in self.word k || k == number) }
    {
        if number >= 64 {
            return self;
        }
        ModuleSet {
            word: self.word | (1 << (63 - number)),
        }
    }

    /// The set without a module.
    pub fn without(self, number: u8) -> ModuleSet
        ensures { (k : ℕ) → k < 64 → is_in result.word k ≡ (is_in self.word k && not (k == number)) }
    {
        if number >= 64 {
            return self;
        }
        ModuleSet {
            word: self.word & !(1 << (63 - number)),
        }
    }

    /// The modules of either set.
    pub fn union(self, other: ModuleSet) -> ModuleSet
        ensures { (k : ℕ) → is_in result.word k ≡ (is_in self.word k || is_in other.word k) }
    {
        ModuleSet {
            word: self.word | other.word,
        }
    }

    /// The modules that the other set does not have.
    pub fn minus(self, other: ModuleSet) -> ModuleSet
        ensures { (k : ℕ) → is_in result.word k ≡ (is_in self.word k && not (is_in other.word k)) }
    {
        ModuleSet {
            word: self.word & !other.word,
        }
    }

    // The set with each module numbered one lower; module 0 is left out.
    fn one_lower(self) -> ModuleSet
        ensures { (k : ℕ) → k < 64 → is_in result.word k ≡ is_in self.word (suc k) }
    {
        ModuleSet {
            word: self.word << 1,
        }
    }

    /// The set without a module, the later ones numbered one lower.
    pub fn closed_up(self, number: u8) -> ModuleSet
        ensures { (k : ℕ) → k < 64 → is_in result.word k ≡ is_in self.word (opened_at number k) }
    {
        let before = self.minus(ModuleSet::at_or_past(number as usize));
        let after = self.minus(before).without(number);
        before.union(after.one_lower())
    }

    /// Whether some module is in both sets.
    pub fn meets(self, other: ModuleSet) -> bool
        ensures { Decides result ((k : ℕ) × (is_in self.word k ≡ true) × (is_in other.word k ≡ true)) }
    {
        self.word & other.word != 0
    }

    /// How many modules there are.
    pub fn size(self) -> usize
        ensures { result ≡ length (members self.word) }
    {
        self.word.count_ones() as usize
    }

    /// The lowest module.
    pub fn lowest(self) -> Option<u8>
        ensures { result ≡ slice_get (members self.word) 0 }
    {
        (self.word != 0).then_some(self.word.leading_zeros() as u8)
    }

    /// The module of a set of one.
    pub fn only(self) -> Option<u8>
        ensures { result ≡ lone (members self.word) }
    {
        if self.size() == 1 {
            self.lowest()
        } else {
            None
        }
    }

    /// Module number `k` in rising order, counted from 0.
    // By leading zeros, as decided: so `k` modules are taken out, and no iterator's `nth` serves.
    pub fn kth(self, k: usize) -> Option<u8>
        ensures { result ≡ slice_get (members self.word) k }
    {
        let mut rest = self;
        for _ in 0..k {
            rest = rest.without(rest.lowest()?);
        }
        rest.lowest()
    }
}
