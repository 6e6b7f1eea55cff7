//! The first pass over a page: every check, and nothing written.
ghost use Rattle.std.specs.Prelude.{◌≡◌, ◌+◌, ◌*◌, ◌^◌, ◌<◌, ◌≤◌, length, Some, None, MatchResult};
ghost use Rattle.page.specs.Layout.{modules_field, nets_field, net_bit, pins_table};
ghost use Rattle.page.specs.Faults.{nets_fault, header_fault, pad_fault};

use crate::bits::{field, first_set};
use crate::net::Net;
use netlist::limits::{MODULES_MOST, NETS_MOST};
use price::Price;
use refusal::{Fault, Place};

// The bits of the nets, by their end, with the number of their pins.
#[derive(Clone, Copy)]
pub(crate) struct Extent {
    pub(crate) end: usize,
    pub(crate) pins: usize,
}

// What the header says.
#[derive(Clone, Copy)]
pub(crate) struct Header {
    pub(crate) modules: u32,
    pub(crate) nets: usize,
}

// Looks at the header's fields, where a page of one price kind is wanted.
pub(crate) fn check_header<P: Price>(bytes: &[u8]) -> Result<Header, Fault>
    ensures cases { MatchResult result
        (λ h. (header_fault bytes.now P.kind.number ≡ None) × (h.modules ≡ modules_field bytes.now)
        × (h.nets ≡ nets_field bytes.now) × (h.modules ≤ 64) × (h.nets ≤ 1024) × (22 ≤ 8 * length bytes.now))
        (λ e. header_fault bytes.now P.kind.number ≡ Some e) }
{
    if field(bytes, 0, 4)? != u32::from(P::PAGE_NUMBER) {
        return Err(Fault::OtherKind { bit: 0 });
    }
    let modules = field(bytes, 4, 7)?;
    if modules as usize > MODULES_MOST {
        return Err(Fault::TooManyModules { at: Place::Bit(4) });
    }
    let nets = field(bytes, 11, 11)? as usize;
    if nets > NETS_MOST {
        return Err(Fault::TooManyNets { at: Place::Bit(11) });
    }
    Ok(Header { modules, nets })
}

// Looks at the nets in their order.
pub(crate) fn check_nets(bytes: &[u8], modules: u32, nets: usize) -> Result<Extent, Fault>
    requires few { nets ≤ 1024 }
    requires headed { 22 ≤ 8 * length bytes.now }
    ensures cases { MatchResult result
        (λ n. (nets_fault bytes.now modules nets ≡ None) × (n.end ≡ net_bit bytes.now nets)
        × (n.end < 2 ^ 30) × (n.end ≤ 8 * length bytes.now)
        × (n.pins ≡ length (pins_table bytes.now nets)))
        (λ e. nets_fault bytes.now modules nets ≡ Some e) }
{
    let mut end = 22;
    let mut pins = 0;
    for _ in 0..nets {
        let net = Net::check(bytes, end, modules)?;
        end = net.end();
        pins += net.pins();
    }
    Ok(Extent { end, pins })
}

// Looks at the bits after the last net: zero up to the byte's end, and no byte after it.
pub(crate) fn check_pad(bytes: &[u8], end: usize) -> Result<(), Fault>
    requires early { end < 2 ^ 30 }
    requires whole { end ≤ 8 * length bytes.now }
    ensures cases { MatchResult result
        (λ _. pad_fault bytes.now end ≡ None)
        (λ e. pad_fault bytes.now end ≡ Some e) }
{
    let size = end.div_ceil(8);
    if let Some(bit) = first_set(bytes, end, 8 * size) {
        return Err(Fault::AfterLastNet { bit });
    }
    if bytes.len() > size {
        return Err(Fault::AfterLastNet { bit: 8 * size });
    }
    Ok(())
}
