//! The cheapest split of a netlist.
ghost use Rattle.std.specs.Prelude.{◌≡◌, ℕ, ◌<◌, ◌&&◌, nat_lt};
ghost use Rattle.moduleset.specs.Words.{has as is_in};
ghost use Rattle.netlist.specs.Places.{place as place_in};
ghost use Rattle.netlist.specs.Meaning.{homes as homes_of};
ghost use Rattle.partition.specs.Splits.{SplitCall};

use crate::pull_row::clear;
use crate::rounds::split_modules;
use cut::found::FoundSplit;
use moduleset::ModuleSet;
use netlist::Netlist;
use price::Price;
use refusal::Fault;

/// Answers the cheapest split that keeps each group on one side, and its price. Leaves as many first cells as home modules zero,
/// and later cells as they were.
///
/// Refuses where the cells are fewer than the home modules, and then where fewer than two groups are left; the cells are left as they were.
pub fn split<N: Netlist>(netlist: &N, cells: &mut [N::Price]) -> Result<FoundSplit<N::Price>, Fault>
    ensures { SplitCall N.Price.Price.kind (N.meaning netlist.now) cells.old cells.new result }
{
    let homes = netlist.home_count();
    let count = netlist.module_count();
    if cells.len() < homes {
        return Err(Fault::TooShort { table: 1 });
    }
    if count < 2 {
        return Err(Fault::TooFewGroups);
    }
    let found = split_modules(netlist, cells, count as u8);
    clear(&mut cells[..homes]);
    Ok(FoundSplit {
        sides: home_set(netlist, found.sides).word,
        price: found.price,
    })
}

// The home modules of a set of modules.
fn home_set<N: Netlist>(netlist: &N, sides: ModuleSet) -> ModuleSet
    ensures { (i : ℕ) → i < 64 → is_in result.word i ≡ (nat_lt i (homes_of (N.meaning netlist.now)) && is_in sides.word (place_in (N.meaning netlist.now).places i)) }
{
    let mut set = ModuleSet::empty();
    for i in 0..netlist.home_count() {
        if netlist.place(i).is_some_and(|place| sides.has(place)) {
            set = set.with(i as u8);
        }
    }
    set
}
