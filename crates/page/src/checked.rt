//! A page that has passed its checks.
ghost use Rattle.std.specs.Prelude.{◌≡◌, ◌≤◌, not, ◌==◌, length, Some, None, MatchResult};
ghost use Rattle.std.specs.Bool.{then_some};
ghost use Rattle.refusal.specs.declared.Fault.TheVariants.{OtherKind};
ghost use Rattle.refusal.specs.Checks.{checked};
ghost use Rattle.page.specs.Layout.{kind_field};
ghost use Rattle.page.specs.Faults.{page_fault, room_fault};
ghost use Rattle.page.specs.Unpacking.{Counted, Holds, Fills};

use crate::bits::value;
use crate::check::{check_header, check_nets, check_pad};
use crate::counts::Counts;
use crate::fill::fill_nets;
use price::Price;
use refusal::Fault;

/// A page without a fault in the kind that it names, and its counts.
#[derive(Clone, Copy)]
pub struct CheckedPage<'a> {
    pub bytes: &'a [u8],
    pub counts: Counts,
    pub ghost fine: { page_fault bytes.now (kind_field bytes.now) ≡ None },
    pub ghost counted: { Counted bytes.now counts },
    pub ghost few: { counts.nets ≤ 1024 },
    pub ghost holds: { Holds bytes.now counts.nets },
}

/// The page that these bytes are, of one price kind, with its counts.
///
/// Refuses with the first fault of the page: 1 to 4 and 6 to 9, at the first bit of its field.
pub fn check_page<P: Price>(bytes: &[u8]) -> Result<CheckedPage<'_>, Fault>
    ensures { MatchResult result
        (λ page. (page_fault bytes.now P.kind.number ≡ None) × (page.bytes.now ≡ bytes.now) × Counted bytes.now page.counts)
        (λ e. page_fault bytes.now P.kind.number ≡ Some e) }
{
    let header = check_header::<P>(bytes)?;
    let extent = check_nets(bytes, header.modules, header.nets)?;
    check_pad(bytes, extent.end)?;
    Ok(CheckedPage {
        bytes,
        counts: Counts {
            modules: header.modules as usize,
            nets: header.nets,
            pins: extent.pins,
        },
    })
}

impl<'a> CheckedPage<'a> {
    /// Looks at whether the tables have an entry for each start, pin and price of the page.
    ///
    /// Refuses the first that is too short (10: starts, pins, prices).
    pub fn check_room<P>(&self, starts: &[u32], pins: &[u8], prices: &[P]) -> Result<(), Fault>
        ensures { result ≡ checked (room_fault self.now.counts.nets self.now.counts.pins
            (length starts.now) (length pins.now) (length prices.now)) }
    {
        if starts.len() < self.counts.nets + 1 {
            return Err(Fault::TooShort { table: 1 });
        }
        if pins.len() < self.counts.pins {
            return Err(Fault::TooShort { table: 2 });
        }
        if prices.len() < self.counts.nets {
            return Err(Fault::TooShort { table: 3 });
        }
        Ok(())
    }

    // Looks at whether the page is of the kind `P`.
    fn check_kind<P: Price>(&self) -> Result<(), Fault>
        ensures { result ≡ checked (then_some (not (kind_field self.now.bytes.now == P.kind.number)) (OtherKind 0)) }
    {
        if value(self.bytes, 0, 4) != u32::from(P::PAGE_NUMBER) {
            return Err(Fault::OtherKind { bit: 0 });
        }
        Ok(())
    }

    /// Writes the page into the first entries of the caller's three tables, and leaves their later entries.
    ///
    /// Refuses prices of another kind than the page's (2, at bit 0), and then what `check_room` refuses. A refusal leaves the tables as they were.
    // Three slices: a struct that holds them would need a clause on each reference, and say no more.
    pub fn fill<P: Price>(
        &self,
        starts: &mut [u32],
        pins: &mut [u8],
        prices: &mut [P],
    ) -> Result<(), Fault>
        ensures { Fills P.kind self.now.bytes.now result
            starts.old starts.new pins.old pins.new prices.old prices.new }
    {
        self.check_kind::<P>()?;
        // Tried: `get_mut` of each part, with `?`. After one that is refused nothing is known of the tables.
        self.check_room(starts, pins, prices)?;
        fill_nets(
            self.bytes,
            &mut starts[..=self.counts.nets],
            &mut pins[..self.counts.pins],
            &mut prices[..self.counts.nets],
        );
        Ok(())
    }
}
