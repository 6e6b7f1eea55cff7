//! The second pass over a page: the tables are written, and nothing can be refused.
ghost use Rattle.std.specs.Prelude.{◌≡◌, ◌+◌, length};
ghost use Rattle.page.specs.Layout.{net_pins, pins_table, starts_table, prices_table};
ghost use Rattle.page.specs.Unpacking.{Holds};

use crate::net::WholeNet;
use price::Price;

// Writes the pins of a net over a table of as many.
fn fill_pins(whole: &WholeNet, pins: &mut [u8])
    requires { length pins.old ≡ whole.now.net.pins }
    ensures { pins.new ≡ net_pins whole.now.net.bytes.now whole.now.net.at whole.now.net.pins }
{
    for (k, pin) in pins.iter_mut().enumerate() {
        *pin = whole.pin(k) as u8;
    }
}

// Writes the tables of the first nets, which the page holds whole: as many nets as there are prices.
pub(crate) fn fill_nets<P: Price>(
    bytes: &[u8],
    starts: &mut [u32],
    pins: &mut [u8],
    prices: &mut [P],
)
    requires holds { Holds bytes.now (length prices.old) }
    requires starts_fit { length starts.old ≡ length prices.old + 1 }
    requires pins_fit { length pins.old ≡ length (pins_table bytes.now (length prices.old)) }
    ensures starts { starts.new ≡ starts_table bytes.now (length prices.old) }
    ensures pins { pins.new ≡ pins_table bytes.now (length prices.old) }
    ensures prices { prices.new ≡ prices_table bytes.now P.kind (length prices.old) }
{
    starts[0] = 0;
    let mut at = 22;
    let mut total = 0;
    for (i, price) in prices.iter_mut().enumerate() {
        let net = WholeNet::at(bytes, at);
        let end = total + net.pins();
        fill_pins(&net, &mut pins[total..end]);
        total = end;
        // By number: after a `zip` of two `iter_mut` a proof knows no item of either.
        starts[i + 1] = total as u32;
        *price = P::from_field(net.price());
        at = net.end();
    }
}
