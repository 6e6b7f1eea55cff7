//! Nets as sets of modules or of groups, and the module at which a net pulls.
ghost use Rattle.std.specs.Prelude.{◌≡◌, ℕ, ◌<◌, false, List, map, length, IfSome, slice_index};
ghost use Rattle.moduleset.specs.Words.{has as is_in};
ghost use Rattle.netlist.specs.Meaning.{own_nets};
ghost use Rattle.cut.specs.Cuts.{pulls};
ghost use Rattle.grouping.specs.Masks.{SetOf, MasksOf, EmptyPast, UnitedSet, pins_of, names};

use moduleset::ModuleSet;
use netlist::Netlist;
use netlist::limits::{MODULES_MOST, NETS_MOST};
use price::Price;

/// Of each net the modules of its pins, so that no step asks for the pins again. Past the last net, no modules.
pub fn gather<N: Netlist>(netlist: &N) -> [ModuleSet; NETS_MOST]
    ensures nets { MasksOf (map (λ mask. mask.word) result) (own_nets N.Price.Price.kind (N.meaning netlist.now)) }
    ensures rest { EmptyPast (length (N.meaning netlist.now).nets) (map (λ mask. mask.word) result) }
{
    let mut masks = [ModuleSet::empty(); NETS_MOST];
    for (i, mask) in masks[..netlist.net_count()].iter_mut().enumerate() {
        *mask = net_mask(netlist, i);
    }
    masks
}

// The modules of a net's pins.
fn net_mask<N: Netlist>(netlist: &N, net: usize) -> ModuleSet
    ensures { SetOf result.word (pins_of (own_nets N.Price.Price.kind (N.meaning netlist.now)) net) }
{
    let mut mask = ModuleSet::empty();
    // A loop over `(0..MODULES_MOST).map_while(..)`: tried, and the check stops at the type of its iterator.
    for k in 0..MODULES_MOST {
        let Some(pin) = netlist.pin(net, k) else {
            break;
        };
        mask = mask.with(pin);
    }
    mask
}

/// Of each net the groups of its pins, once groups `a` and `b` are one.
pub fn united_masks(mut masks: [ModuleSet; NETS_MOST], a: u8, b: u8) -> [ModuleSet; NETS_MOST]
    ensures { (i : ℕ) → i < 1024 → UnitedSet a b (slice_index (map (λ mask. mask.word) masks) i) (slice_index (map (λ mask. mask.word) result) i) }
{
    unite_masks(&mut masks, a, b);
    masks
}

/// The same in place, of as many nets as are lent: the sets past a netlist's last net need not be gone through.
pub fn unite_masks(masks: &mut [ModuleSet], a: u8, b: u8)
    ensures { (i : ℕ) → i < length masks.old → UnitedSet a b (slice_index (map (λ mask. mask.word) masks.old) i) (slice_index (map (λ mask. mask.word) masks.new) i) }
{
    for mask in masks.iter_mut() {
        *mask = united_mask(*mask, a, b);
    }
}

// The groups of a net's pins, once groups `a` and `b` are one.
fn united_mask(mask: ModuleSet, a: u8, b: u8) -> ModuleSet
    ensures { UnitedSet a b mask.word result.word }
{
    let higher = a.max(b);
    let closed = mask.closed_up(higher);
    if mask.has(higher) {
        closed.with(a.min(b))
    } else {
        closed
    }
}

/// The module at which a net pulls: the net has a pin there, one among those taken and none elsewhere.
pub fn pulled_at(mask: ModuleSet, taken: ModuleSet) -> Option<u8>
    ensures exact { (pins : List ℕ) → SetOf mask.word pins → (v : ℕ) → is_in taken.word v ≡ false → names result v ≡ pulls v (is_in taken.word) pins }
    ensures waits { IfSome result (λ v. (v < 64) × (is_in taken.word v ≡ false)) }
{
    if !mask.meets(taken) {
        return None;
    }
    mask.minus(taken).only()
}
