//! Single bits and fields of a page.
ghost use Rattle.std.specs.Prelude.{◌≡◌, ◌+◌, ◌*◌, ◌^◌, ◌<◌, ◌≤◌, ◌≢◌, ℕ, length, Some, None, MatchOption, MatchResult};
ghost use Rattle.page.specs.Bits.{bit_at, field_at};
ghost use Rattle.page.specs.Faults.{ends};

use refusal::Fault;

#[tactic(auto, using(std::proofs::lemmas::Nat::and_mask))]
pub(crate) fn bit(bytes: &[u8], at: usize) -> u32
    requires { at < 8 * length bytes.now }
    ensures { result ≡ bit_at bytes.now at }
{
    (u32::from(bytes[at / 8]) >> (7 - at % 8)) & 1
}

// The first bit that is set, from one bit up to another.
pub(crate) fn first_set(bytes: &[u8], from: usize, to: usize) -> Option<usize>
    requires { to ≤ 8 * length bytes.now }
    ensures { MatchOption result
        ((at : ℕ) → from ≤ at → at < to → bit_at bytes.now at ≢ 1)
        (λ found. (from ≤ found) × (found < to) × (bit_at bytes.now found ≡ 1)
        × ((at : ℕ) → from ≤ at → at < found → bit_at bytes.now at ≢ 1)) }
{
    (from..to).find(|&at| bit(bytes, at) == 1)
}

// The number in a field that the page holds whole.
pub(crate) fn value(bytes: &[u8], at: usize, width: usize) -> u32
    requires narrow { width ≤ 32 }
    requires early { at < 2 ^ 32 }
    requires whole { at + width ≤ 8 * length bytes.now }
    ensures value { result ≡ field_at bytes.now at width }
    ensures bound { result < 2 ^ width }
{
    (at..at + width).fold(0, |value, at| value * 2 + bit(bytes, at))
}

// The number in a field, or a refusal where the page ends inside it.
#[tactic(auto, using(crate::proofs::FieldLaws::holds_whole))]
pub(crate) fn field(bytes: &[u8], at: usize, width: usize) -> Result<u32, Fault>
    requires narrow { width ≤ 32 }
    requires early { at < 2 ^ 32 }
    ensures cases { MatchResult result
        (λ v. (ends bytes.now at width ≡ None) × (v ≡ field_at bytes.now at width) × (v < 2 ^ width)
        × (at + width ≤ 8 * length bytes.now))
        (λ e. ends bytes.now at width ≡ Some e) }
{
    if bytes.len() < (at + width).div_ceil(8) {
        return Err(Fault::PageEnds { bit: at });
    }
    Ok(value(bytes, at, width))
}
