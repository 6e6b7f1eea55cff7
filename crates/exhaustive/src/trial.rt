//! A small netlist in a record of this program's own, with the straps and mutes that stand.
use crate::sides::Sides;
use anyhow::bail;
use netlist::Netlist;
use price::Price;
use std::alloc::Global;

// A home net: its pins and its price.
#[derive(Drop)]
pub(crate) struct Net<P> {
    pub(crate) pins: Vec<usize>,
    pub(crate) price: P,
}

// Home modules 0 to `modules - 1`, their nets, the pairs that are strapped and the nets that are muted.
#[derive(Drop)]
pub(crate) struct Trial<P> {
    pub(crate) modules: usize,
    pub(crate) nets: Vec<Net<P>>,
    pub(crate) straps: Vec<(usize, usize)>,
    pub(crate) muted: Vec<usize>,
}

impl<P> Net<P> {
    // Whether the net has a pin on each board.
    pub(crate) fn crosses(&self, sides: Sides) -> bool {
        self.pins.iter().any(|pin| sides.is_on_b(*pin))
            && self.pins.iter().any(|pin| !sides.is_on_b(*pin))
    }
}

impl<P: Price> Trial<P> {
    // Modules without nets; nothing is strapped or muted.
    pub(crate) fn of(heap: Global, modules: usize) -> Trial<P> {
        Trial {
            modules,
            nets: Vec::new(heap),
            straps: Vec::new(heap),
            muted: Vec::new(heap),
        }
    }

    // What a netlist's own questions tell: its modules are groups, and a muted net's price is zero, so nothing is strapped or muted here.
    pub(crate) fn asked<N: Netlist<Price = P>>(
        heap: Global,
        netlist: &N,
    ) -> anyhow::Result<Trial<P>> {
        let mut trial = Trial::of(heap, netlist.module_count());
        for net in 0..netlist.net_count() {
            let Some(price) = netlist.price(net) else {
                bail!("a net that is there has no price");
            };
            trial.nets.push(Net {
                pins: asked_pins(heap, netlist, net)?,
                price,
            })?;
        }
        Ok(trial)
    }

    // The price of a division: the prices of the nets that cross and are not muted, joined.
    pub(crate) fn true_price(&self, sides: Sides) -> P {
        self.joined(|net| net.crosses(sides))
    }

    // The prices of the nets that are not muted and of which the test holds, joined.
    pub(crate) fn joined<F: Fn(&Net<P>) -> bool>(&self, counts: F) -> P
        requires { F.IsAlwaysCallable counts }
    {
        let mut price = P::zero();
        for (number, net) in self.nets.iter().enumerate() {
            if counts(net) && !self.muted.contains(&number) {
                price = price.join(net.price);
            }
        }
        price
    }
}

// The pins of a net, as the netlist's questions tell them.
fn asked_pins<N: Netlist>(heap: Global, netlist: &N, net: usize) -> anyhow::Result<Vec<usize>> {
    let Some(count) = netlist.pin_count(net) else {
        bail!("the pins of a net that is there are not counted");
    };
    let mut pins = Vec::new(heap);
    for k in 0..count {
        let Some(pin) = netlist.pin(net, k) else {
            bail!("a pin that is counted is not there");
        };
        pins.push(usize::from(pin))?;
    }
    Ok(pins)
}

// Whether two prices are equal: neither is less.
pub(crate) fn are_equal<P: Price>(one: P, other: P) -> bool {
    !one.less(other) && !other.less(one)
}
