//! Rows of groups: for each of 64 modules the number of its group. A row of 64 bytes is copied and passed on by value.
#![tactic(auto)]

ghost use Rattle.std.specs.Prelude.{◌≡◌, ℕ, ◌<◌, length};
ghost use Rattle.netlist.specs.Places.{place as place_in};
ghost use Rattle.netlist.specs.Changes.{united as united_in, united_place as united_place_of};

use netlist::limits::MODULES_MOST;
use std::array;

/// Each module a group of its own.
pub fn singles() -> [u8; MODULES_MOST]
    ensures own { (v : ℕ) → v < 64 → place_in result v ≡ v }
    ensures long { length result ≡ 64 }
{
    array::from_fn(|v| v as u8)
}

/// The row with groups `a` and `b` united.
pub fn united_row(mut row: [u8; MODULES_MOST], a: u8, b: u8) -> [u8; MODULES_MOST]
    ensures { result ≡ united_in a b row }
{
    for group in row.iter_mut() {
        *group = united_place(a, b, *group);
    }
    row
}

// The number of a group once groups `a` and `b` are one: that has the lower of the two numbers, and the numbers above the higher close up.
fn united_place(a: u8, b: u8, group: u8) -> u8
    ensures { result ≡ united_place_of a b group }
{
    let higher = a.max(b);
    if group < higher {
        group
    } else if group == higher {
        a.min(b)
    } else {
        group - 1
    }
}
