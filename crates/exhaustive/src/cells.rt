//! The rows that calls are handed, and whether they were left as they should be.
use crate::trial::are_equal;
use price::Price;
use std::alloc::{AllocError, Global};

// What a row of bytes holds before a call.
const BYTE_BEFORE: u8 = 0xee;

// So many cells, none of them zero.
pub(crate) fn cells_before<P: Price>(heap: Global, count: usize) -> Result<Vec<P>, AllocError> {
    vec![in heap; cell_before(); count]
}

// So many bytes.
pub(crate) fn bytes_before(heap: Global, count: usize) -> Result<Vec<u8>, AllocError> {
    vec![in heap; BYTE_BEFORE; count]
}

// Whether so many first cells are zero, and later ones as they were.
pub(crate) fn are_cleared<P: Price>(cells: &[P], count: usize) -> bool {
    let cleared = cells.iter().take(count);
    let later = cells.iter().skip(count);
    cleared.copied().all(|cell| are_equal(cell, P::zero()))
        && later.copied().all(|cell| are_equal(cell, cell_before()))
}

// Whether the bytes begin with these modules, and later ones are as they were.
pub(crate) fn are_written(bytes: &[u8], modules: &[usize]) -> bool {
    let later = bytes.iter().skip(modules.len());
    bytes.len() >= modules.len()
        && bytes
            .iter()
            .zip(modules)
            .all(|(byte, module)| usize::from(*byte) == *module)
        && later.copied().all(|byte| byte == BYTE_BEFORE)
}

fn cell_before<P: Price>() -> P {
    P::from_field(7)
}
