// Coordinates and their loss.
use samples::sheets::{ROW, three, twenty};
use scaling::coordinates::coordinates;
use std::test::Fail;

#[test]
fn three_units(rt: HostRuntime) -> Result<(), Fail> {
    let marks = three(2, 7, 4)?;
    let mut list = [5; 3];
    assert_eq!(rt; coordinates(&marks, &[1, 2, 3], &mut list), Some(1));
    assert_eq!(rt; list, [-9, -2, 11]);
    Ok(())
}

#[test]
fn a_lower_displacement_later(rt: HostRuntime) -> Result<(), Fail> {
    let marks = three(0, 1, 2)?;
    let mut list = [5; 3];
    assert_eq!(rt; coordinates(&marks, &[1, 2, 3], &mut list), Some(1));
    assert_eq!(rt; list, [-1, -2, 3]);
    Ok(())
}

#[test]
fn past_the_units_nothing_changes(rt: HostRuntime) -> Result<(), Fail> {
    let marks = three(2, 7, 4)?;
    let mut list = [5, 6, 7, 8, 9];
    assert_eq!(rt; coordinates(&marks, &[3, 2, 1, 9], &mut list), Some(1));
    assert_eq!(rt; list, [-11, 2, 9, 8, 9]);
    Ok(())
}

#[test]
fn refused(rt: HostRuntime) -> Result<(), Fail> {
    let marks = three(2, 7, 4)?;
    let mut short = [5, 6];
    assert_eq!(rt; coordinates(&marks, &[1, 2, 3], &mut short), None);
    assert_eq!(rt; short, [5, 6]);
    let mut list = [5, 6, 7];
    assert_eq!(rt; coordinates(&marks, &[1, 2], &mut list), None);
    assert_eq!(rt; coordinates(&marks, &[1, 2, 2], &mut list), None);
    assert_eq!(rt; coordinates(&marks, &[1, 2, 4], &mut list), None);
    assert_eq!(rt; list, [5, 6, 7]);
    Ok(())
}

#[test]
fn greatest_marks(rt: HostRuntime) -> Result<(), Fail> {
    let marks = twenty()?;
    let mut list = [0; 20];
    assert_eq!(rt; coordinates(&marks, &ROW, &mut list), Some(114_000_000_000));
    assert_eq!(rt; list[0], -190_000);
    assert_eq!(rt; list[19], 190_000);
    Ok(())
}
