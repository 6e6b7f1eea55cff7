//! Unpacking: every refusal at its bit, and what fills the tables.
use crate::comparing::equal;
use crate::packing::{Field, Packer, packed};
use fixtures::small_page::SMALL;
use fixtures::{number_of, told};
use page::counts::Counts;
use page::known::{KnownKind, known_kind};
use page::unpack::unpack_page;
use price::Price;
use price::values::{TimersFirst, Widest, Wires};
use refusal::Place;
use std::alloc::AllocError;
use std::fmt::Debug;
use std::process::Abort;
use std::test::Fail;

// Unpacks fields in wires, with tables of a few entries that a refusal must leave.
fn fields_refused(
    rt: &(impl Abort + AllocGlobal),
    fields: &[Field],
    number: u8,
    bit: usize,
) -> Result<(), Fail> {
    let page = packed(rt.alloc(), fields)?;
    bytes_refused(rt, page.as_slice(), number, Place::Bit(bit));
    Ok(())
}

fn bytes_refused(rt: &impl Abort, page: &[u8], number: u8, place: Place) {
    let mut starts = [7u32; 4];
    let mut pins = [7u8; 8];
    let mut prices = [Wires { count: 7 }; 4];
    let answer = refusal_of(page, &mut starts, &mut pins, &mut prices);
    equal(rt, answer, Some((number, place)));
    holds(rt, &starts, &[7; 4]);
    holds(rt, &pins, &[7; 8]);
    holds(rt, &prices, &[Wires { count: 7 }; 4]);
}

// A table holds just these entries.
fn holds<T: PartialEq + Debug>(rt: &impl Abort, table: &[T], entries: &[T]) {
    equal(rt, table, entries);
}

// How unpacking is refused, if it is.
fn refusal_of<P: Price>(
    page: &[u8],
    starts: &mut [u32],
    pins: &mut [u8],
    prices: &mut [P],
) -> Option<(u8, Place)> {
    told(unpack_page(page, starts, pins, prices))
}

// A page is unpacked, and has these counts.
fn unpacks<P: Price>(
    rt: &impl Abort,
    page: &[u8],
    starts: &mut [u32],
    pins: &mut [u8],
    prices: &mut [P],
    counts: Counts,
) {
    equal(rt, unpack_page(page, starts, pins, prices), Ok(counts));
}

#[test]
fn the_small_page_unpacks(rt: HostRuntime) {
    let mut starts = [7u32; 4];
    let mut pins = [7u8; 6];
    let mut prices = [Wires { count: 7 }; 3];
    let counts = Counts {
        modules: 3,
        nets: 2,
        pins: 4,
    };
    unpacks(&rt, &SMALL, &mut starts, &mut pins, &mut prices, counts);
    holds(&rt, &starts, &[0, 2, 4, 7]);
    holds(&rt, &pins, &[0, 1, 1, 2, 7, 7]);
    let filled = [Wires { count: 5 }, Wires { count: 3 }, Wires { count: 7 }];
    holds(&rt, &prices, &filled);
}

#[test]
fn the_small_page_spoiled(rt: HostRuntime) {
    let mut page = SMALL;
    page[15] = 0x31;
    bytes_refused(&rt, &page, 9, Place::Bit(127));
    bytes_refused(&rt, &SMALL[0..15], 1, Place::Bit(92));
}

// The first field of a page, its kind.
const WIRES: Field = (1, 4);

#[test]
fn a_page_that_ends_inside_a_field(rt: HostRuntime) {
    bytes_refused(&rt, &[], 1, Place::Bit(0));
    bytes_refused(&rt, &SMALL[0..1], 1, Place::Bit(4));
    bytes_refused(&rt, &SMALL[0..2], 1, Place::Bit(11));
    bytes_refused(&rt, &SMALL[0..3], 1, Place::Bit(22));
    bytes_refused(&rt, &SMALL[0..4], 1, Place::Bit(29));
    bytes_refused(&rt, &SMALL[0..5], 1, Place::Bit(35));
    bytes_refused(&rt, &SMALL[0..6], 1, Place::Bit(41));
    bytes_refused(&rt, &SMALL[0..9], 1, Place::Bit(41));
    bytes_refused(&rt, &SMALL[0..10], 1, Place::Bit(80));
    bytes_refused(&rt, &SMALL[0..11], 1, Place::Bit(86));
}

#[test]
fn another_kind_than_wanted(rt: HostRuntime) -> Result<(), Fail> {
    fields_refused(&rt, &[(0, 4), (3, 7), (0, 11)], 2, 0)?;
    fields_refused(&rt, &[(2, 4), (3, 7), (0, 11)], 2, 0)?;
    fields_refused(&rt, &[(15, 4)], 2, 0)?;
    let mut prices = [Widest { width: 7 }; 2];
    equal(
        &rt,
        refusal_of(&SMALL, &mut [0; 3], &mut [0; 4], &mut prices),
        Some((2, Place::Bit(0))),
    );
    Ok(())
}

#[test]
fn too_many_modules_or_nets(rt: HostRuntime) -> Result<(), Fail> {
    fields_refused(&rt, &[WIRES, (65, 7), (0, 11)], 3, 4)?;
    fields_refused(&rt, &[WIRES, (127, 7), (2047, 11)], 3, 4)?;
    fields_refused(&rt, &[WIRES, (64, 7), (1025, 11)], 4, 11)?;
    fields_refused(&rt, &[WIRES, (64, 7), (1024, 11)], 1, 22)
}

#[test]
fn too_few_pins(rt: HostRuntime) -> Result<(), Fail> {
    fields_refused(&rt, &[WIRES, (3, 7), (1, 11), (0, 7), (9, 32)], 6, 22)?;
    fields_refused(
        &rt,
        &[WIRES, (3, 7), (1, 11), (1, 7), (0, 6), (9, 32)],
        6,
        22,
    )?;
    let first = [
        WIRES,
        (3, 7),
        (2, 11),
        (2, 7),
        (0, 6),
        (1, 6),
        (9, 32),
        (1, 7),
        (0, 6),
        (9, 32),
    ];
    fields_refused(&rt, &first, 6, 73)
}

#[test]
fn pins_that_are_not_there(rt: HostRuntime) -> Result<(), Fail> {
    fields_refused(
        &rt,
        &[WIRES, (3, 7), (1, 11), (2, 7), (3, 6), (0, 6), (9, 32)],
        7,
        29,
    )?;
    fields_refused(
        &rt,
        &[WIRES, (3, 7), (1, 11), (2, 7), (0, 6), (3, 6), (9, 32)],
        7,
        35,
    )
}

#[test]
fn pins_that_repeat(rt: HostRuntime) -> Result<(), Fail> {
    let third = [
        WIRES,
        (3, 7),
        (1, 11),
        (3, 7),
        (0, 6),
        (1, 6),
        (0, 6),
        (9, 32),
    ];
    fields_refused(&rt, &third, 8, 41)?;
    let second = [
        WIRES,
        (3, 7),
        (1, 11),
        (3, 7),
        (1, 6),
        (1, 6),
        (5, 6),
        (9, 32),
    ];
    fields_refused(&rt, &second, 8, 35)
}

// A pin that is not there is told before a repeat, and a missing bit before both.
#[test]
fn which_fault_of_a_pin_is_told(rt: HostRuntime) -> Result<(), Fail> {
    fields_refused(
        &rt,
        &[WIRES, (3, 7), (1, 11), (2, 7), (4, 6), (4, 6), (9, 32)],
        7,
        29,
    )?;
    fields_refused(&rt, &[WIRES, (3, 7), (1, 11), (2, 7), (0, 6)], 1, 35)
}

#[test]
fn a_pin_count_of_127(rt: HostRuntime) -> Result<(), Fail> {
    let mut packer = Packer::new(rt.alloc());
    packer.fields(&[WIRES, (64, 7), (1, 11), (127, 7)])?;
    for k in 0..127u32 {
        packer.field(k % 64, 6)?;
    }
    packer.field(9, 32)?;
    bytes_refused(&rt, packer.finish()?.as_slice(), 8, Place::Bit(413));
    Ok(())
}

#[test]
fn bits_and_bytes_after_the_last_net(rt: HostRuntime) -> Result<(), Fail> {
    let empty = [WIRES, (0, 7), (0, 11)];
    fields_refused(&rt, &[WIRES, (0, 7), (0, 11), (1, 2)], 9, 23)?;
    fields_refused(&rt, &[WIRES, (0, 7), (0, 11), (3, 2)], 9, 22)?;
    fields_refused(&rt, &[WIRES, (0, 7), (0, 11), (0, 2), (0, 8)], 9, 24)?;
    fields_refused(&rt, &[WIRES, (0, 7), (0, 11), (1, 2), (0, 8)], 9, 23)?;
    let mut starts = [7u32; 2];
    let mut prices = [Wires { count: 7 }; 1];
    let page = packed(rt.alloc(), &empty)?;
    let counts = Counts {
        modules: 0,
        nets: 0,
        pins: 0,
    };
    unpacks(
        &rt,
        page.as_slice(),
        &mut starts,
        &mut [],
        &mut prices,
        counts,
    );
    holds(&rt, &starts, &[0, 7]);
    Ok(())
}

// The small page is unpacked into tables with this room, or refused so.
fn small_with_room(
    rt: &(impl Abort + AllocGlobal),
    starts: usize,
    pins: usize,
    prices: usize,
    refusal: Option<(u8, Place)>,
) -> Result<(), AllocError> {
    let mut starts = vec![in rt.alloc(); 7u32; starts]?;
    let mut pins = vec![in rt.alloc(); 7u8; pins]?;
    let mut prices = vec![in rt.alloc(); Wires { count: 7 }; prices]?;
    let answer = refusal_of(
        &SMALL,
        starts.as_mut_slice(),
        pins.as_mut_slice(),
        prices.as_mut_slice(),
    );
    equal(rt, answer, refusal);
    Ok(())
}

#[test]
fn tables_one_entry_short(rt: HostRuntime) -> Result<(), Fail> {
    small_with_room(&rt, 2, 4, 2, Some((10, Place::Table(1))))?;
    small_with_room(&rt, 3, 3, 2, Some((10, Place::Table(2))))?;
    small_with_room(&rt, 3, 4, 1, Some((10, Place::Table(3))))?;
    small_with_room(&rt, 2, 3, 1, Some((10, Place::Table(1))))?;
    small_with_room(&rt, 3, 4, 2, None)?;
    Ok(())
}

#[test]
fn timers_first_unpacks(rt: HostRuntime) -> Result<(), Fail> {
    let fields = [
        (2, 4),
        (2, 7),
        (1, 11),
        (2, 7),
        (1, 6),
        (0, 6),
        (0x0001_0002, 32),
    ];
    let page = packed(rt.alloc(), &fields)?;
    let mut pins = [7u8; 2];
    let mut prices = [TimersFirst {
        timers: 7,
        wires: 7,
    }; 1];
    let counts = Counts {
        modules: 2,
        nets: 1,
        pins: 2,
    };
    unpacks(
        &rt,
        page.as_slice(),
        &mut [7; 2],
        &mut pins,
        &mut prices,
        counts,
    );
    holds(&rt, &pins, &[1, 0]);
    let price = TimersFirst {
        timers: 1,
        wires: 2,
    };
    holds(&rt, &prices, &[price]);
    Ok(())
}

#[test]
fn widest_unpacks(rt: HostRuntime) -> Result<(), Fail> {
    let fields = [
        (3, 4),
        (2, 7),
        (1, 11),
        (2, 7),
        (0, 6),
        (1, 6),
        (u32::MAX, 32),
    ];
    let page = packed(rt.alloc(), &fields)?;
    let mut prices = [Widest { width: 7 }; 1];
    let answer = refusal_of(page.as_slice(), &mut [7; 2], &mut [7; 2], &mut prices);
    equal(&rt, answer, None);
    holds(&rt, &prices, &[Widest { width: 4294967295 }]);
    Ok(())
}

fn kind_is(rt: &impl Abort, page: &[u8], kind: KnownKind) {
    equal(rt, known_kind(page), Ok(kind));
}

fn kind_refused(rt: &impl Abort, page: &[u8], number: u8) {
    equal(rt, number_of(known_kind(page)), Some(number));
}

#[test]
fn the_kind_that_a_page_names(rt: HostRuntime) {
    kind_is(&rt, &[0x10], KnownKind::Wires);
    kind_is(&rt, &[0x2f, 0xff], KnownKind::TimersFirst);
    kind_is(&rt, &[0x3f], KnownKind::Widest);
    for byte in [0x00, 0x40, 0xf0] {
        kind_refused(&rt, &[byte], 2);
    }
    kind_refused(&rt, &[], 1);
}

// 64 modules and 1,024 nets of 64 pins each, at prices that rise by three; the pins of net i begin with module i modulo 64.
fn longest_page(rt: &HostRuntime) -> Result<Vec<u8>, Fail> {
    let mut packer = Packer::new(rt.alloc());
    packer.fields(&[WIRES, (64, 7), (1024, 11)])?;
    for i in 0..1024u32 {
        packer.field(64, 7)?;
        for k in 0..64u32 {
            packer.field((i + k) % 64, 6)?;
        }
        packer.field(3 * i, 32)?;
    }
    Ok(packer.finish()?)
}

// The longest page's starts: each net has 64 pins.
fn starts_by_64(rt: &impl Abort, starts: &[u32]) {
    for (i, start) in starts.iter().enumerate() {
        equal(rt, *start as usize, i.wrapping_mul(64));
    }
}

// Its pins: those of net i begin with module i modulo 64.
fn pins_go_round(rt: &impl Abort, pins: &[u8]) {
    for (k, pin) in pins.iter().enumerate() {
        equal(rt, *pin as usize, (k / 64 + k % 64) % 64);
    }
}

// Its prices.
fn prices_by_three(rt: &impl Abort, prices: &[Wires]) {
    for (i, price) in prices.iter().enumerate() {
        equal(rt, price.count, (i as u64).wrapping_mul(3));
    }
}

// The longest page, unpacked into tables of just its size.
fn longest_unpacks(rt: &(impl Abort + AllocGlobal), page: &[u8]) -> Result<(), Fail> {
    let mut starts = vec![in rt.alloc(); 7u32; 1025]?;
    let mut pins = vec![in rt.alloc(); 99u8; 65536]?;
    let mut prices = vec![in rt.alloc(); Wires { count: 1 }; 1024]?;
    let counts = Counts {
        modules: 64,
        nets: 1024,
        pins: 65536,
    };
    unpacks(
        rt,
        page,
        starts.as_mut_slice(),
        pins.as_mut_slice(),
        prices.as_mut_slice(),
        counts,
    );
    starts_by_64(rt, starts.as_slice());
    pins_go_round(rt, pins.as_slice());
    prices_by_three(rt, prices.as_slice());
    Ok(())
}

#[test]
fn the_longest_page_unpacks(rt: HostRuntime) -> Result<(), Fail> {
    let mut page = longest_page(&rt)?;
    equal(&rt, page.len(), 54147);
    longest_unpacks(&rt, page.as_slice())?;
    page.push(0)?;
    bytes_refused(&rt, page.as_slice(), 9, Place::Bit(433176));
    Ok(())
}
