//! A netlist that is computed by a rule and has no tables: a chain of modules, each wired to the next by one wire.
#![tactic(auto, using(bottom::proofs::Asked::asked))]

ghost use Rattle.std.specs.Prelude.{◌≤◌};

pub mod questions;

/// A chain of at most 64 modules.
#[derive(Clone, Copy, PartialEq, Eq, Debug)]
pub struct Chain {
    modules: u8,
    ghost few: { modules ≤ 64 },
}
