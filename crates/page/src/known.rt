//! Which of the three price kinds a page names in its first four bits, and the page checked in that kind.
ghost use Rattle.std.specs.Prelude.{◌≡◌, Some, None, MatchResult};
ghost use Rattle.page.specs.Layout.{kind_field};
ghost use Rattle.page.specs.Known.{Names, Refuses, known_number, known_fault, own_fault};
ghost use Rattle.page.specs.Unpacking.{Counted};

use crate::bits::field;
use crate::checked::{CheckedPage, check_page};
use price::values::{TimersFirst, Widest, Wires};
use refusal::Fault;

/// The price kinds that a page can name.
#[derive(Clone, Copy, PartialEq, Eq, Debug)]
pub enum KnownKind {
    Wires,
    TimersFirst,
    Widest,
}

/// That a number names none of the three kinds.
#[derive(Clone, Copy, PartialEq, Eq, Debug)]
pub struct UnknownKind;

impl From<UnknownKind> for Fault {
    ghost from_gives = { Refuses };

    // A page's kind stands at its first bit.
    fn from(_: UnknownKind) -> Fault {
        Fault::OtherKind { bit: 0 }
    }
}

impl TryFrom<u32> for KnownKind {
    type Error = UnknownKind;

    ghost try_from_gives = { Names };

    fn try_from(number: u32) -> Result<KnownKind, UnknownKind> {
        match number {
            1 => Ok(KnownKind::Wires),
            2 => Ok(KnownKind::TimersFirst),
            3 => Ok(KnownKind::Widest),
            _ => Err(UnknownKind),
        }
    }
}

/// The price kind that the page's first four bits name.
///
/// Refuses with 1 where the page ends inside them, and with 2 where they name none of the three kinds, both at bit 0.
pub fn known_kind(bytes: &[u8]) -> Result<KnownKind, Fault>
    ensures { MatchResult result
        (λ k. (known_fault bytes.now ≡ None) × (kind_field bytes.now ≡ known_number k))
        (λ e. known_fault bytes.now ≡ Some e) }
{
    Ok(KnownKind::try_from(field(bytes, 0, 4)?)?)
}

/// A checked page, with the price kind that it names.
#[derive(Clone, Copy)]
pub struct KnownPage<'a> {
    pub kind: KnownKind,
    pub page: CheckedPage<'a>,
}

/// The page that these bytes are, checked in the price kind that its first four bits name.
///
/// Refuses with what `known_kind` refuses, and then with the first fault of the page in that kind.
pub fn check_known(bytes: &[u8]) -> Result<KnownPage<'_>, Fault>
    ensures { MatchResult result
        (λ known. (own_fault bytes.now ≡ None) × (known.page.bytes.now ≡ bytes.now) × Counted bytes.now known.page.counts
        × (kind_field bytes.now ≡ known_number known.kind))
        (λ e. own_fault bytes.now ≡ Some e) }
{
    let kind = known_kind(bytes)?;
    let page = match kind {
        KnownKind::Wires => check_page::<Wires>(bytes)?,
        KnownKind::TimersFirst => check_page::<TimersFirst>(bytes)?,
        KnownKind::Widest => check_page::<Widest>(bytes)?,
    };
    Ok(KnownPage { kind, page })
}
