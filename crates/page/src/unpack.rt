//! Unpack: a page into the caller's tables.
ghost use Rattle.page.specs.Unpacking.{Unpacks};

use crate::checked::check_page;
use crate::counts::Counts;
use price::Price;
use refusal::Fault;

/// Unpacks a page of one price kind into the first entries of the caller's three tables, and answers the counts of modules, nets and pins.
///
/// Refuses with the first fault of the page (1 to 4 and 6 to 9, at the first bit of its field), or else of the tables (10).
/// A refusal leaves the tables as they were; an accepted page leaves their later entries.
pub fn unpack_page<P: Price>(
    bytes: &[u8],
    starts: &mut [u32],
    pins: &mut [u8],
    prices: &mut [P],
) -> Result<Counts, Fault>
    ensures { Unpacks P.kind bytes.now result
        starts.old starts.new pins.old pins.new prices.old prices.new }
{
    let page = check_page::<P>(bytes)?;
    page.fill(starts, pins, prices)?;
    Ok(page.counts)
}
