//! What the product's order answers and leaves, compared with the rule as read here.
use crate::cells::{are_cleared, are_written, bytes_before, cells_before};
use crate::trial::Trial;
use netlist::Netlist;
use partition::ordering::order;
use price::Price;
use refusal::Fault;
use std::alloc::{AllocError, Global};

// The rows that an order is handed.
#[derive(Drop)]
pub(crate) struct OrderRows<P> {
    pub(crate) cells: Vec<P>,
    pub(crate) bytes: Vec<u8>,
}

impl<P: Price> OrderRows<P> {
    // Rows with one place more than there are modules.
    pub(crate) fn before(heap: Global, modules: usize) -> Result<OrderRows<P>, AllocError> {
        let room = modules.saturating_add(1);
        OrderRows::sized(heap, room, room)
    }

    // Rows of so many cells and bytes.
    fn sized(heap: Global, cells: usize, bytes: usize) -> Result<OrderRows<P>, AllocError> {
        Ok(OrderRows {
            cells: cells_before(heap, cells)?,
            bytes: bytes_before(heap, bytes)?,
        })
    }

    // Orders a netlist into the rows.
    fn order<N: Netlist<Price = P>>(&mut self, netlist: &N) -> Result<P, Fault> {
        order(
            netlist,
            self.cells.as_mut_slice(),
            self.bytes.as_mut_slice(),
        )
    }

    // Whether an order refuses these rows, since this one of them is too short, and leaves both as they were.
    fn are_refused<N: Netlist<Price = P>>(mut self, netlist: &N, short: usize) -> bool {
        let told = match self.order(netlist) {
            Err(Fault::TooShort { table }) => table == short,
            _ => false,
        };
        told && are_cleared(self.cells.as_slice(), 0) && are_written(self.bytes.as_slice(), &[])
    }

    // Whether an order may answer so and leave the rows so, by what the netlist's own questions tell.
    pub(crate) fn agree<N: Netlist<Price = P>>(
        &self,
        heap: Global,
        netlist: &N,
        answer: Result<P, Fault>,
    ) -> anyhow::Result<bool> {
        let trial = Trial::asked(heap, netlist)?;
        let mut order = trial.order(heap)?;
        let allowed = trial.allows_order(order.as_slice(), answer);
        if answer.is_err() {
            order.clear();
        }
        Ok(
            allowed
                && are_cleared(self.cells.as_slice(), order.len())
                && are_written(self.bytes.as_slice(), order.as_slice()),
        )
    }
}

// Whether the product orders a netlist as the rule says.
pub(crate) fn order_agrees<N: Netlist>(heap: Global, netlist: &N) -> anyhow::Result<bool> {
    let mut rows = OrderRows::before(heap, netlist.module_count())?;
    let answer = rows.order(netlist);
    rows.agree(heap, netlist, answer)
}

// Whether the product refuses rows with one place less than there are modules: the cells are the first table, the bytes the second,
// and where both are too short it tells of the first.
pub(crate) fn short_rows_agree<N: Netlist>(heap: Global, netlist: &N) -> Result<bool, AllocError> {
    let enough = netlist.module_count();
    let Some(few) = enough.checked_sub(1) else {
        // No row is too short for no modules.
        return Ok(true);
    };
    let short_cells = OrderRows::sized(heap, few, enough)?;
    let short_bytes = OrderRows::sized(heap, enough, few)?;
    let both_short = OrderRows::sized(heap, few, few)?;
    Ok(
        short_cells.are_refused(netlist, 1)
            && short_bytes.are_refused(netlist, 2)
            && both_short.are_refused(netlist, 1),
    )
}
