//! Pages: netlists packed into bits, most significant first, and how they are checked and unpacked.
#![tactic(auto)]

mod bits;
mod check;
pub mod checked;
pub mod counts;
mod fill;
pub mod known;
mod net;
pub mod unpack;
pub mod worked;
