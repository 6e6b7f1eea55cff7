//! The tables that a page is unpacked into.
ghost use Rattle.std.specs.Prelude.{◌≡◌, replicate, IfOk, vec_items, vec_len};

use crate::limits::PINS_MOST;
use netlist::limits::{MODULES_MOST, NETS_MOST};
use price::Price;
use std::alloc::{AllocError, Global};

/// Tables with room for every page of a price kind, and a row of cells with one for each home module.
#[derive(Drop)]
pub struct Tables<P> {
    pub starts: Vec<u32>,
    pub pins: Vec<u8>,
    pub prices: Vec<P>,
    pub cells: Vec<P>,
    pub ghost starts_room: { vec_len starts ≡ 1025 },
    pub ghost pins_room: { vec_len pins ≡ 65536 },
    pub ghost prices_room: { vec_len prices ≡ 1024 },
    pub ghost cells_room: { vec_len cells ≡ 64 },
}

impl<P: Price> Tables<P> {
    /// Tables with zero in each place.
    pub fn new(heap: Global) -> Result<Tables<P>, AllocError>
        ensures starts { IfOk result (λ tables. vec_items tables.starts ≡ replicate 1025 0) }
        ensures pins { IfOk result (λ tables. vec_items tables.pins ≡ replicate 65536 0) }
        ensures prices { IfOk result (λ tables. vec_items tables.prices ≡ replicate 1024 P.kind.zero) }
        ensures cells { IfOk result (λ tables. vec_items tables.cells ≡ replicate 64 P.kind.zero) }
    {
        Ok(Tables {
            starts: vec![in heap; 0u32; NETS_MOST + 1]?,
            pins: vec![in heap; 0u8; PINS_MOST]?,
            prices: zeros(heap, NETS_MOST)?,
            cells: zeros(heap, MODULES_MOST)?,
        })
    }
}

// So many prices of zero. Not by `vec!`: nothing says that a clone of a kind's price is that price.
fn zeros<P: Price>(heap: Global, count: usize) -> Result<Vec<P>, AllocError>
    ensures len { IfOk result (λ prices. vec_len prices ≡ count) }
    ensures items { IfOk result (λ prices. vec_items prices ≡ replicate count P.kind.zero) }
{
    let mut prices = Vec::with_capacity(heap, count)?;
    for _ in 0..count {
        prices.push(P::zero())?;
    }
    Ok(prices)
}
