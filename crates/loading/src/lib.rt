//! From a page's tables to a netlist: what is unpacked always loads.
#![tactic(auto)]

ghost use Rattle.bottom.specs.LoadFaults.{Loads};
ghost use Rattle.pin_tables.specs.Means.{means};
ghost use Rattle.loading.specs.Loading.{counted_fault, counted_meaning, LoadsPages};

use bottom::check_counts;
use page::counts::Counts;
use pin_tables::PinTables;
use price::Price;
use refusal::Fault;

/// Loads the first entries of tables that an unpacked page filled, as many as its counts say.
///
/// Refuses more than 64 modules (3) or 1,024 nets (4), then tables that are shorter than the counts say (10: starts, pins, prices), and then what loading those entries refuses (5 to 8).
/// What `unpack_page` has filled is never refused, and means the page's nets.
pub fn load_unpacked<'a, P: Price>(
    tables: &mut PinTables<'a, P>,
    counts: Counts,
    starts: &'a [u32],
    pins: &'a [u8],
    prices: &'a [P],
) -> Result<(), Fault>
    ensures loads { Loads means (counted_fault counts starts.now pins.now prices.now)
        (counted_meaning counts starts.now pins.now prices.now) tables.old tables.new result }
    ensures pages { LoadsPages P.kind counts starts.now pins.now prices.now (means tables.new) result }
{
    let Counts {
        modules,
        nets,
        pins: count,
    } = counts;
    check_counts(modules, nets)?;
    let starts = starts.get(..=nets).ok_or(Fault::TooShort { table: 1 })?;
    let pins = pins.get(..count).ok_or(Fault::TooShort { table: 2 })?;
    let prices = prices.get(..nets).ok_or(Fault::TooShort { table: 3 })?;
    tables.load(modules, starts, pins, prices)
}
