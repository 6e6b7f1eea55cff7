//! Layers: straps, mutes, their refusals, and a pile of four.
//! What is asked of a layer stands over any netlist below it: it takes longer to prove over one that is named.
use crate::asked::{nets_are, pins_are, places_are};
use crate::comparing::equal;
use crate::loading::tables;
use fixtures::five_modules::{PINS, STARTS, WIRES};
use fixtures::number_of;
use layers::mute::MuteLayer;
use layers::strap::StrapLayer;
use netlist::Netlist;
use price::values::Wires;
use std::process::Abort;

fn unites_and_numbers_again<N: Netlist>(rt: &impl Abort, layer: &mut StrapLayer<N>) {
    equal(rt, layer.module_count(), 5);
    equal(rt, layer.strap(2, 4), Ok(()));
    equal(rt, layer.module_count(), 4);
    equal(rt, layer.place(4), Some(2));
    equal(rt, layer.strap(3, 1), Ok(()));
    places_are(rt, layer, &[0, 1, 2, 1, 2]);
    pins_are(rt, layer, 2, &[1, 2, 1]);
}

#[test]
fn straps_unite_and_number_again(rt: HostRuntime) {
    let bottom = tables(&rt, 5, &STARTS, &PINS, &WIRES);
    unites_and_numbers_again(&rt, &mut StrapLayer::over(bottom));
}

fn refuses_straps<N: Netlist>(rt: &impl Abort, layer: &mut StrapLayer<N>) {
    for (a, b) in [(0, 5), (9999, 0), (7, 7)] {
        equal(rt, number_of(layer.strap(a, b)), Some(11));
    }
    equal(rt, number_of(layer.strap(3, 3)), Some(12));
    equal(rt, layer.strap(2, 4), Ok(()));
    equal(rt, number_of(layer.strap(4, 2)), Some(12));
    equal(rt, layer.module_count(), 4);
}

#[test]
fn straps_refused(rt: HostRuntime) {
    let bottom = tables(&rt, 5, &STARTS, &PINS, &WIRES);
    refuses_straps(&rt, &mut StrapLayer::over(bottom));
}

fn mutes_and_refuses<N: Netlist<Price = Wires>>(rt: &impl Abort, layer: &mut MuteLayer<N>) {
    equal(rt, layer.price(3), Some(Wires { count: 4 }));
    equal(rt, layer.mute(3), Ok(()));
    equal(rt, number_of(layer.mute(3)), Some(14));
    equal(rt, number_of(layer.mute(5)), Some(13));
    equal(rt, number_of(layer.mute(9999)), Some(13));
    nets_are(
        rt,
        layer,
        &[(3, false), (2, false), (2, false), (0, true), (1, false)],
    );
    pins_are(rt, layer, 3, &[3, 4]);
}

#[test]
fn mutes_and_their_refusals(rt: HostRuntime) {
    let bottom = tables(&rt, 5, &STARTS, &PINS, &WIRES);
    mutes_and_refuses(&rt, &mut MuteLayer::over(bottom));
}

// The modules 1, 3 and 4 are one, and the nets 0 and 4 are muted.
fn united_and_muted<N: Netlist<Price = Wires>>(rt: &impl Abort, pile: &N) {
    equal(rt, pile.module_count(), 3);
    places_are(rt, pile, &[0, 1, 2, 1, 1]);
    pins_are(rt, pile, 2, &[1, 2, 1]);
    nets_are(
        rt,
        pile,
        &[(0, true), (2, false), (2, false), (4, false), (0, true)],
    );
}

#[test]
fn a_pile_of_four_layers(rt: HostRuntime) {
    let mut first = MuteLayer::over(tables(&rt, 5, &STARTS, &PINS, &WIRES));
    equal(&rt, first.mute(0), Ok(()));
    let mut second = StrapLayer::over(first);
    equal(&rt, second.strap(1, 3), Ok(()));
    let mut third = MuteLayer::over(second);
    equal(&rt, number_of(third.mute(0)), Some(14));
    equal(&rt, third.mute(4), Ok(()));
    let mut pile = StrapLayer::over(third);
    equal(&rt, number_of(pile.strap(3, 1)), Some(12));
    equal(&rt, pile.strap(4, 1), Ok(()));
    united_and_muted(&rt, &pile);
}
