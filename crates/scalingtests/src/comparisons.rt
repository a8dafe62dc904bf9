// Comparisons kept and broken.
use samples::sheets::{ROW, three, twenty};
use scaling::comparisons::comparisons;
use std::test::Fail;

#[test]
fn three_units(rt: HostRuntime) -> Result<(), Fail> {
    let marks = three(2, 7, 4)?;
    assert_eq!(rt; comparisons(&marks, &[1, 2, 3]), Some((2, 0)));
    assert_eq!(rt; comparisons(&marks, &[1, 3, 2, 9]), Some((0, 2)));
    assert_eq!(rt; comparisons(&marks, &[2, 1, 3]), Some((1, 1)));
    Ok(())
}

#[test]
fn no_order(rt: HostRuntime) -> Result<(), Fail> {
    let marks = three(2, 7, 4)?;
    assert_eq!(rt; comparisons(&marks, &[1, 2]), None);
    assert_eq!(rt; comparisons(&marks, &[1, 2, 2]), None);
    assert_eq!(rt; comparisons(&marks, &[0, 1, 2]), None);
    Ok(())
}

#[test]
fn equal_marks_break_nothing(rt: HostRuntime) -> Result<(), Fail> {
    let marks = twenty()?;
    assert_eq!(rt; comparisons(&marks, &ROW), Some((2280, 0)));
    Ok(())
}

#[test]
fn one_lower_mark(rt: HostRuntime) -> Result<(), Fail> {
    let mut marks = twenty()?;
    marks.put(1, 20, 9999)?;
    assert_eq!(rt; comparisons(&marks, &ROW), Some((2244, 36)));
    Ok(())
}
