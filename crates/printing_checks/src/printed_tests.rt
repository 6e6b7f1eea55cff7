//! What is printed of a small page and a script, and the tables that are made for a page.
use crate::comparing::equal;
use fixtures::small_page::SMALL;
use price::Price;
use price::values::Wires;
use printing::kinds::print_all;
use printing::tables::Tables;
use std::test::Fail;

#[test]
fn six_lines_over_the_small_page(rt: HostRuntime) -> Result<(), Fail> {
    let printed = print_all(rt.alloc(), &SMALL, b"p\ns 1 2\np\ns 2 1\nb\np\n")?;
    equal(
        &rt,
        printed.as_slice(),
        b"ok 2000000000000000 0000000000000003
ok
ok 6000000000000000 0000000000000005
no 12
ok
ok 2000000000000000 0000000000000003
"
            .as_slice(),
    );
    Ok(())
}

#[test]
fn a_refused_page_alone(rt: HostRuntime) -> Result<(), Fail> {
    let mut page = SMALL;
    page[15] = 0x31;
    let printed = print_all(rt.alloc(), &page, b"p\n")?;
    equal(&rt, printed.as_slice(), b"page no 9 at 127\n".as_slice());
    Ok(())
}

#[test]
fn tables_with_room_for_every_page(rt: HostRuntime) -> Result<(), Fail> {
    let tables = Tables::<Wires>::new(rt.alloc())?;
    equal(&rt, tables.starts.len(), 1025);
    equal(&rt, tables.pins.len(), 65536);
    equal(&rt, tables.prices.len(), 1024);
    equal(&rt, tables.cells.len(), 64);
    Ok(())
}
