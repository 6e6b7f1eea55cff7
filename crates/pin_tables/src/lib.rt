//! Pin tables: a bottom over starts, pins and prices of the caller's.
#![tactic(auto, using(bottom::proofs::Asked::asked))]

ghost use Rattle.std.specs.Prelude.{◌≡◌, ◌+◌, ◌≤◌, length};
ghost use Rattle.bottom.specs.Fitting.{FewPins, PinsThere};
ghost use Rattle.pin_tables.specs.Tables.{net_pins, Rising};

mod load;
mod pins;
pub mod questions;

/// A netlist whose net i owns the pins from `starts[i]` up to, not including, `starts[i + 1]`.
/// Three tables in parallel, since the caller hands them in so.
#[derive(Drop)]
pub struct PinTables<'a, P> {
    modules: usize,
    starts: &'a [u32],
    pins: &'a [u8],
    prices: &'a [P],
    ghost counted: { (modules ≤ 64) × (length prices.now ≤ 1024) × (length starts.now ≡ length prices.now + 1) },
    ghost rising: { Rising starts.now pins.now (length prices.now) },
    ghost short: { FewPins (net_pins starts.now pins.now) (length prices.now) },
    ghost there: { PinsThere modules (net_pins starts.now pins.now) (length prices.now) },
}
