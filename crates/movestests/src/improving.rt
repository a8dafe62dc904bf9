// What improving answers, and what it leaves in the row.
use crate::sheets::{improved, three};
use moves::improve::{Improvement, MoveFault};
use moves::insertion::Insertion;
use moves::interchange::Interchange;

// The answer of some moves, a total, and settled or not.
fn reached(made: u32, total: u64, settled: bool) -> Result<Improvement<u64>, MoveFault> {
    Ok(Improvement {
        made,
        total,
        settled,
    })
}

#[test]
fn two_interchanges(rt: HostRuntime) {
    let sheet = three(3).expect(&rt, "three units");
    let mut row = [1, 3, 2];
    assert_eq!(rt;
        improved::<Interchange>(&sheet, 2, &mut row),
        reached(2, 206, true)
    );
    assert_eq!(rt; row, [3, 2, 1]);
}

#[test]
fn settled_below_the_limit(rt: HostRuntime) {
    let sheet = three(3).expect(&rt, "three units");
    let mut row = [1, 3, 2];
    assert_eq!(rt;
        improved::<Interchange>(&sheet, 9, &mut row),
        reached(2, 206, true)
    );
    assert_eq!(rt;
        improved::<Interchange>(&sheet, 0, &mut row),
        reached(0, 206, true)
    );
    assert_eq!(rt; row, [3, 2, 1]);
}

#[test]
fn one_interchange(rt: HostRuntime) {
    let sheet = three(3).expect(&rt, "three units");
    let mut row = [1, 3, 2];
    assert_eq!(rt;
        improved::<Interchange>(&sheet, 1, &mut row),
        reached(1, 182, false)
    );
    assert_eq!(rt; row, [3, 1, 2]);
}

#[test]
fn no_interchange(rt: HostRuntime) {
    let sheet = three(3).expect(&rt, "three units");
    let mut row = [1, 3, 2, 77, 78];
    assert_eq!(rt;
        improved::<Interchange>(&sheet, 0, &mut row),
        reached(0, 126, false)
    );
    assert_eq!(rt; row, [1, 3, 2, 77, 78]);
}

#[test]
fn insertions(rt: HostRuntime) {
    let sheet = three(3).expect(&rt, "three units");
    let mut row = [1, 3, 2, 77];
    assert_eq!(rt;
        improved::<Insertion>(&sheet, 1, &mut row),
        reached(1, 182, false)
    );
    assert_eq!(rt; row, [3, 1, 2, 77]);
    assert_eq!(rt;
        improved::<Insertion>(&sheet, 1, &mut row),
        reached(1, 206, true)
    );
    assert_eq!(rt; row, [1, 2, 3, 77]);
}

// With 1 before 3, neither 3 1 2 nor 3 2 1 is allowed.
#[test]
fn ties_are_kept(rt: HostRuntime) {
    let mut sheet = three(3).expect(&rt, "three units");
    assert_eq!(rt; sheet.ties.set(1, 3, true), Ok(()));
    let mut row = [1, 3, 2, 77];
    assert_eq!(rt;
        improved::<Interchange>(&sheet, 9, &mut row),
        reached(1, 206, true)
    );
    assert_eq!(rt; row, [1, 2, 3, 77]);
}
