// Each fault, with the row as it was, and which of two comes first.
use crate::sheets::{improved, three};
use moves::improve::MoveFault;
use moves::insertion::Insertion;
use moves::interchange::Interchange;
use std::test::Fail;

#[test]
fn other_units(rt: HostRuntime) {
    let sheet = three(4).expect(&rt, "three units");
    let mut row = [1, 3];
    assert_eq!(rt;
        improved::<Interchange>(&sheet, 2, &mut row),
        Err(MoveFault::Units)
    );
    assert_eq!(rt; row, [1, 3]);
}

#[test]
fn short_row(rt: HostRuntime) {
    let sheet = three(3).expect(&rt, "three units");
    let mut row = [1, 1];
    assert_eq!(rt;
        improved::<Insertion>(&sheet, 2, &mut row),
        Err(MoveFault::Short)
    );
    assert_eq!(rt; row, [1, 1]);
}

#[test]
fn no_order(rt: HostRuntime) {
    let sheet = three(3).expect(&rt, "three units");
    let mut row = [1, 3, 1, 2];
    assert_eq!(rt;
        improved::<Interchange>(&sheet, 2, &mut row),
        Err(MoveFault::NoOrder)
    );
    assert_eq!(rt; row, [1, 3, 1, 2]);
    let mut high = [1, 2, 4];
    assert_eq!(rt;
        improved::<Insertion>(&sheet, 2, &mut high),
        Err(MoveFault::NoOrder)
    );
    assert_eq!(rt; high, [1, 2, 4]);
}

#[test]
fn against_a_tie(rt: HostRuntime) {
    let mut sheet = three(3).expect(&rt, "three units");
    assert_eq!(rt; sheet.ties.set(2, 3, true), Ok(()));
    let mut row = [1, 3, 2];
    assert_eq!(rt;
        improved::<Interchange>(&sheet, 2, &mut row),
        Err(MoveFault::Against)
    );
    assert_eq!(rt; row, [1, 3, 2]);
    let mut twice = [3, 2, 2];
    assert_eq!(rt;
        improved::<Interchange>(&sheet, 2, &mut twice),
        Err(MoveFault::NoOrder)
    );
    assert_eq!(rt; twice, [3, 2, 2]);
}

#[test]
fn fault_in_words(rt: HostRuntime) -> Result<(), Fail> {
    let words = format!(in rt.alloc(); "{}", MoveFault::Against)?;
    assert_eq!(rt; words.as_str(), "the order breaks a tie");
    Ok(())
}
