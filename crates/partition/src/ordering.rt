//! The order of a netlist's modules.
ghost use Rattle.partition.specs.Orders.{OrderCall, LastTwoParted};

use crate::groups::Groups;
use crate::round::Round;
use netlist::Netlist;
use price::Price;
use refusal::Fault;

/// Writes the order of the modules into the first bytes, and answers the price of parting off the last alone:
/// no split that parts the last two is cheaper. Leaves as many first cells as modules zero, and later cells and bytes as they were.
///
/// Refuses where the cells, and then where the bytes, are fewer than the modules, and then where there are fewer than two modules;
/// both rows are left as they were.
pub fn order<N: Netlist>(
    netlist: &N,
    cells: &mut [N::Price],
    bytes: &mut [u8],
) -> Result<N::Price, Fault>
    ensures call { OrderCall N.Price.Price.kind (N.meaning netlist.now) cells.old cells.new bytes.old bytes.new result }
    ensures last { LastTwoParted N.Price.Price.kind (N.meaning netlist.now) }
{
    let count = netlist.module_count();
    if cells.len() < count {
        return Err(Fault::TooShort { table: 1 });
    }
    if bytes.len() < count {
        return Err(Fault::TooShort { table: 2 });
    }
    if count < 2 {
        return Err(Fault::TooFewGroups);
    }
    let groups = Groups::singles(netlist);
    let round = Round::new(netlist, &groups, count as u8);
    Ok(round.order(&mut cells[..count], &mut bytes[..count]))
}
