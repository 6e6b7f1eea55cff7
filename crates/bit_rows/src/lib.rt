//! Bit rows: a bottom over rows and prices of the caller's.
#![tactic(auto, using(bottom::proofs::Asked::asked))]

ghost use Rattle.std.specs.Prelude.{◌≡◌, ◌≤◌, length};
ghost use Rattle.bottom.specs.Fitting.{PinsThere};
ghost use Rattle.bit_rows.specs.Rows.{row_pins};

mod load;
mod pins;
pub mod questions;

/// A netlist with one row of 64 bits a net, module 0 the most significant, 1 for a pin.
#[derive(Drop)]
pub struct BitRows<'a, P> {
    modules: usize,
    rows: &'a [u64],
    prices: &'a [P],
    ghost counted: { (modules ≤ 64) × (length prices.now ≤ 1024) × (length rows.now ≡ length prices.now) },
    ghost there: { PinsThere modules (row_pins rows.now) (length prices.now) },
}
