//! One net of a page: where its fields stand, what they say, and its checks.
ghost use Rattle.std.specs.Prelude.{◌≡◌, ◌+◌, ◌*◌, ◌^◌, ◌<◌, ◌≤◌, length, Some, None, MatchResult};
ghost use Rattle.page.specs.Layout.{pin as pin_of, pin_bit as bit_of_pin, pin_count, price_field, net_end};
ghost use Rattle.refusal.specs.Checks.{first_fault};
ghost use Rattle.page.specs.Faults.{ends, among, pin_fault, net_fault};

use crate::bits::{field, value};
use refusal::{Fault, Place};

// A net of a page: the bit where it begins, and its pin count, which the page holds.
#[derive(Clone, Copy)]
pub(crate) struct Net<'a> {
    bytes: &'a [u8],
    at: usize,
    pins: usize,
    ghost early: { at < 2 ^ 30 },
    ghost counted: { pins ≡ pin_count bytes.now at },
    ghost few: { pins < 128 },
}

// `at < 2 ^ 30` is asked before there is a net to keep it, and `k < pins` bounds an argument: neither has a type to go into.
impl<'a> Net<'a> {
    // The net at a bit, or a refusal where the page ends inside its pin count.
    fn read(bytes: &'a [u8], at: usize) -> Result<Net<'a>, Fault>
        requires { at < 2 ^ 30 }
        ensures { MatchResult result
            (λ net. (ends bytes.now at 7 ≡ None) × (net.bytes.now ≡ bytes.now) × (net.at ≡ at))
            (λ e. ends bytes.now at 7 ≡ Some e) }
    {
        let pins = field(bytes, at, 7)? as usize;
        Ok(Net { bytes, at, pins })
    }

    // The first bit of pin `k`; after the last pin the price stands.
    fn pin_bit(&self, k: usize) -> usize
        requires { k ≤ self.now.pins }
        ensures { result ≡ bit_of_pin self.now.at k }
    {
        self.at + 7 + 6 * k
    }

    // Pin `k`, which the page holds.
    fn pin(&self, k: usize) -> u32
        requires own { k < self.now.pins }
        requires whole { bit_of_pin self.now.at (k + 1) ≤ 8 * length self.now.bytes.now }
        ensures value { result ≡ pin_of self.now.bytes.now self.now.at k }
        ensures bound { result < 64 }
    {
        value(self.bytes, self.pin_bit(k), 6)
    }

    // Whether one of the pins before pin `k` is `pin`.
    fn repeats(&self, k: usize, pin: u32) -> bool
        requires own { k < self.now.pins }
        requires whole { bit_of_pin self.now.at k ≤ 8 * length self.now.bytes.now }
        ensures { result ≡ among self.now.bytes.now self.now.at pin k }
    {
        (0..k).any(|earlier| self.pin(earlier) == pin)
    }

    // Looks at pin `k`; the pins before it have passed.
    fn check_pin(&self, k: usize, modules: u32) -> Result<(), Fault>
        requires { k < self.now.pins }
        ensures { MatchResult result
            (λ _. pin_fault self.now.bytes.now modules self.now.at k ≡ None)
            (λ e. pin_fault self.now.bytes.now modules self.now.at k ≡ Some e) }
    {
        let bit = self.pin_bit(k);
        let at = Place::Bit(bit);
        let pin = field(self.bytes, bit, 6)?;
        if pin >= modules {
            return Err(Fault::NoSuchModule { at });
        }
        if self.repeats(k, pin) {
            return Err(Fault::RepeatedPin { at });
        }
        Ok(())
    }

    // Looks at the pins in their order.
    #[tactic(auto, using(refusal::proofs::CheckLaws::first_none, refusal::proofs::CheckLaws::first_more))]
    fn check_pins(&self, modules: u32) -> Result<(), Fault>
        ensures { MatchResult result
            (λ _. first_fault (pin_fault self.now.bytes.now modules self.now.at) self.now.pins ≡ None)
            (λ e. first_fault (pin_fault self.now.bytes.now modules self.now.at) self.now.pins ≡ Some e) }
    {
        for k in 0..self.pins {
            self.check_pin(k, modules)?;
        }
        Ok(())
    }

    // Looks at the net at a bit.
    pub(crate) fn check(bytes: &'a [u8], at: usize, modules: u32) -> Result<WholeNet<'a>, Fault>
        requires { at < 2 ^ 30 }
        ensures { MatchResult result
            (λ whole. (net_fault bytes.now modules at ≡ None) × (whole.net.bytes.now ≡ bytes.now) × (whole.net.at ≡ at))
            (λ e. net_fault bytes.now modules at ≡ Some e) }
    {
        let net = Net::read(bytes, at)?;
        if net.pins < 2 {
            return Err(Fault::TooFewPins { at: Place::Bit(at) });
        }
        net.check_pins(modules)?;
        field(bytes, net.pin_bit(net.pins), 32)?;
        Ok(WholeNet { net })
    }
}

// A net that the page holds whole.
#[derive(Clone, Copy)]
pub(crate) struct WholeNet<'a> {
    net: Net<'a>,
    ghost whole: { net_end net.bytes.now net.at ≤ 8 * length net.bytes.now },
}

impl<'a> WholeNet<'a> {
    // The net at a bit, with nothing checked again.
    pub(crate) fn at(bytes: &'a [u8], at: usize) -> WholeNet<'a>
        requires early { at < 2 ^ 30 }
        requires whole { net_end bytes.now at ≤ 8 * length bytes.now }
        ensures { (result.net.bytes.now ≡ bytes.now) × (result.net.at ≡ at) }
    {
        let pins = value(bytes, at, 7) as usize;
        WholeNet {
            net: Net { bytes, at, pins },
        }
    }

    // How many pins it has.
    pub(crate) fn pins(&self) -> usize
        ensures { result ≡ self.now.net.pins }
    {
        self.net.pins
    }

    // Pin `k`.
    pub(crate) fn pin(&self, k: usize) -> u32
        requires { k < self.now.net.pins }
        ensures value { result ≡ pin_of self.now.net.bytes.now self.now.net.at k }
        ensures bound { result < 64 }
    {
        self.net.pin(k)
    }

    // The price field.
    pub(crate) fn price(&self) -> u32
        ensures { result ≡ price_field self.now.net.bytes.now self.now.net.at }
    {
        let net = self.net;
        value(net.bytes, net.pin_bit(net.pins), 32)
    }

    // The first bit after it.
    pub(crate) fn end(&self) -> usize
        ensures value { result ≡ net_end self.now.net.bytes.now self.now.net.at }
        ensures near { result ≤ self.now.net.at + 801 }
    {
        self.net.pin_bit(self.net.pins) + 32
    }
}
