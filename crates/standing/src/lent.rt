//! A netlist that is lent, asked as if it were owned.
pub mod questions;

/// A netlist that belongs to another.
#[derive(Drop)]
pub struct Lent<'a, N> {
    pub netlist: &'a N,
}
