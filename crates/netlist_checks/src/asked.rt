//! What a netlist answers, asked whole: each test names the lists that it should give.
//! Over any netlist: a proof that carries the type of four layers, one on the other, takes minutes.
use crate::comparing::equal;
use netlist::Netlist;
use price::values::Wires;
use std::process::Abort;

// Each home module has its place, and no other has one.
pub(crate) fn places_are<N: Netlist>(rt: &impl Abort, netlist: &N, places: &[u8]) {
    equal(rt, netlist.home_count(), places.len());
    for (home, place) in places.iter().enumerate() {
        equal(rt, netlist.place(home), Some(*place));
    }
    equal(rt, netlist.place(places.len()), None);
}

// A net has these pins, and no more.
pub(crate) fn pins_are<N: Netlist>(rt: &impl Abort, netlist: &N, net: usize, pins: &[u8]) {
    equal(rt, netlist.pin_count(net), Some(pins.len()));
    for (k, pin) in pins.iter().enumerate() {
        equal(rt, netlist.pin(net, k), Some(*pin));
    }
    equal(rt, netlist.pin(net, pins.len()), None);
}

// Each net has its price and says whether it is muted, and no other net is there.
pub(crate) fn nets_are<N: Netlist<Price = Wires>>(
    rt: &impl Abort,
    netlist: &N,
    nets: &[(u64, bool)],
) {
    equal(rt, netlist.net_count(), nets.len());
    for (net, (count, muted)) in nets.iter().enumerate() {
        equal(rt, netlist.price(net), Some(Wires { count: *count }));
        equal(rt, netlist.is_muted(net), Some(*muted));
    }
    no_net(rt, netlist, nets.len());
}

// A net is not there.
fn no_net<N: Netlist>(rt: &impl Abort, netlist: &N, net: usize) {
    assert!(rt; netlist.price(net).is_none());
    equal(rt, netlist.is_muted(net), None);
    equal(rt, netlist.pin_count(net), None);
    equal(rt, netlist.pin(net, 0), None);
}
