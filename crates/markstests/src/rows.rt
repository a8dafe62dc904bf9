// Ties, and the tests of a row.
use marks::faults::MarkFault;
use marks::rows::{is_order, keeps};
use marks::ties::Ties;
use std::test::Fail;

#[test]
fn ties_set_and_taken_back(rt: HostRuntime) -> Result<(), Fail> {
    let mut ties = Ties::new(4).ok_or("not taken")?;
    assert_eq!(rt; ties.set(2, 3, true), Ok(()));
    assert_eq!(rt; ties.set(4, 3, true), Ok(()));
    assert!(rt; ties.tied(2, 3));
    assert!(rt; !ties.tied(3, 2));
    assert_eq!(rt; ties.before(3), 0b1010);
    assert_eq!(rt; ties.set(2, 3, false), Ok(()));
    assert!(rt; !ties.tied(2, 3));
    assert!(rt; ties.tied(4, 3));
    assert_eq!(rt; ties.before(3), 0b1000);
    Ok(())
}

#[test]
fn refused_ties(rt: HostRuntime) -> Result<(), Fail> {
    assert!(rt; Ties::new(1).is_none());
    assert!(rt; Ties::new(21).is_none());
    let mut ties = Ties::new(4).ok_or("not taken")?;
    assert_eq!(rt; ties.set(1, 1, true), Err(MarkFault::NoPair));
    assert_eq!(rt; ties.set(0, 1, true), Err(MarkFault::NoPair));
    assert_eq!(rt; ties.set(1, 5, true), Err(MarkFault::NoPair));
    assert_eq!(rt; ties.before(1), 0);
    assert_eq!(rt; ties.before(0), 0);
    assert_eq!(rt; ties.before(5), 0);
    Ok(())
}

#[test]
fn orders(rt: HostRuntime) {
    assert!(rt; is_order(&[2, 3, 1], 3));
    assert!(rt; is_order(&[2, 3, 1, 9, 9], 3));
    assert!(rt; !is_order(&[2, 3], 3));
    assert!(rt; !is_order(&[2, 3, 2], 3));
    assert!(rt; !is_order(&[2, 3, 0], 3));
    assert!(rt; !is_order(&[2, 3, 4], 3));
}

#[test]
fn kept_ties(rt: HostRuntime) -> Result<(), Fail> {
    let mut ties = Ties::new(3).ok_or("not taken")?;
    assert!(rt; keeps(&ties, &[3, 2, 1]));
    ties.set(1, 3, true)?;
    assert!(rt; keeps(&ties, &[1, 2, 3]));
    assert!(rt; keeps(&ties, &[2, 1, 3]));
    assert!(rt; !keeps(&ties, &[2, 3, 1]));
    Ok(())
}
