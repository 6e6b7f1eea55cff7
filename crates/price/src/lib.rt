//! Price kinds: what a kind of price owes, and the three kinds.
#![tactic(auto)]

ghost use Rattle.std.specs.Prelude.{◌≡◌, ℕ, ◌<◌};
ghost use Rattle.price.specs.Kind.{Kind, Laws};

pub mod timers_first;
pub mod values;
pub mod widest;
pub mod wires;

/// A kind of price. `kind` says what each method answers and what the constant is, and the laws hold over all its values.
// Methods, not `Ord`, `From` and `Into`: a kind owes no more than this interface, and two numbers stand for a price, told apart by name.
pub trait Price: Copy {
    ghost kind: { Kind Self };

    /// The kind's number on a page.
    const PAGE_NUMBER: u8;

    // The constant, so that a law can name it.
    ghost PAGE_NUMBER: { ℕ };

    /// The price of nothing.
    fn zero() -> Self
        ensures { result ≡ kind.zero };

    /// The two prices joined.
    fn join(self, other: Self) -> Self
        ensures { result ≡ kind.join self other };

    /// Whether this price is less than the other.
    fn less(self, other: Self) -> bool
        ensures { result ≡ kind.less self other };

    /// The price in a 32-bit field of a page.
    fn from_field(bits: u32) -> Self
        ensures { result ≡ kind.field bits };

    /// The price as a 64-bit word to print.
    fn print_word(self) -> u64
        ensures { result ≡ kind.word self };

    ghost lawful: { Laws kind };

    ghost numbered: { PAGE_NUMBER ≡ kind.number };

    ghost small: { kind.number < 16 };
}
