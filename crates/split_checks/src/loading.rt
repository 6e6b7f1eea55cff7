//! Tables, loaded.
use pin_tables::PinTables;
use price::Price;
use std::process::Abort;

pub(crate) fn tables<'a, P: Price>(
    rt: &impl Abort,
    modules: usize,
    starts: &'a [u32],
    pins: &'a [u8],
    prices: &'a [P],
) -> PinTables<'a, P> {
    let mut tables = PinTables::empty();
    assert!(rt; tables.load(modules, starts, pins, prices).is_ok());
    tables
}
