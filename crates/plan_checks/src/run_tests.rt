//! A list of calls run on a new plan, with the order of the netlist.
use crate::comparing::equal;
use chain::Chain;
use fixtures::wires;
use plan::calls::{Answer, Asked};
use price::Price;
use price::values::Wires;
use refusal::Fault;
use runs::ordering::run_and_order;
use std::test::Fail;

#[test]
fn calls_on_a_chain_of_four(rt: HostRuntime) -> Result<(), Fail> {
    let heap = rt.alloc();
    // Splits with three, four and five cells, a strap, a mute of a net that is not there, looks, and one take back too many.
    let mut calls = [
        Asked::Look,
        Asked::Split(vec![in heap; Wires { count: 9 }; 4]?),
        Asked::Strap(2, 3),
        Asked::Look,
        Asked::Split(vec![in heap; Wires { count: 9 }; 3]?),
        Asked::Split(vec![in heap; Wires { count: 9 }; 5]?),
        Asked::Mute(7),
        Asked::Look,
        Asked::TakeBack,
        Asked::TakeBack,
    ];
    let mut answers = [Answer::Absent; 10];
    let mut bytes = [9u8; 5];
    let whole = run_and_order(
        &Chain::of(4),
        &mut calls,
        &mut answers,
        &mut [Wires { count: 9 }; 4],
        &mut bytes,
    );
    equal(&rt, whole.count, 10);
    equal(&rt, whole.ordered, Ok(Wires { count: 1 }));
    equal(&rt, bytes, [0, 1, 2, 3, 9]);
    equal(
        &rt,
        answers,
        [
            Answer::Absent,
            Answer::Found(wires(0x1000_0000_0000_0000, 1)),
            Answer::Done,
            Answer::Absent,
            Answer::Refused(Fault::TooShort { table: 1 }),
            Answer::Found(wires(0x3000_0000_0000_0000, 1)),
            Answer::Refused(Fault::NoSuchNet),
            Answer::Found(wires(0x3000_0000_0000_0000, 1)),
            Answer::Done,
            Answer::Refused(Fault::NothingToTakeBack),
        ],
    );
    Ok(())
}
