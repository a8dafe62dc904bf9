// Marks: what is put and read, what is refused, and displacements.
use marks::faults::MarkFault;
use marks::marks::Marks;
use marks::sets::{has, with_unit};
use samples::sheets::{three, twenty};
use std::test::Fail;

#[test]
fn two_to_twenty_units(rt: HostRuntime) -> Result<(), Fail> {
    assert!(rt; Marks::new(1).is_none());
    assert!(rt; Marks::new(21).is_none());
    let fewest = Marks::new(2).ok_or("not taken")?;
    let most = Marks::new(20).ok_or("not taken")?;
    assert_eq!(rt; fewest.units(), 2);
    assert_eq!(rt; most.units(), 20);
    Ok(())
}

#[test]
fn marks_in_both_directions(rt: HostRuntime) -> Result<(), Fail> {
    let marks = three(2, 7, 4)?;
    assert_eq!(rt; marks.mark(1, 3), 7);
    assert_eq!(rt; marks.mark(3, 1), 7);
    assert_eq!(rt; marks.mark(3, 2), 4);
    assert_eq!(rt; marks.mark(2, 2), 0);
    assert_eq!(rt; marks.mark(0, 1), 0);
    assert_eq!(rt; marks.mark(1, 4), 0);
    Ok(())
}

#[test]
fn refused_marks(rt: HostRuntime) -> Result<(), Fail> {
    let mut marks = three(2, 7, 4)?;
    assert_eq!(rt; marks.put(1, 1, 5), Err(MarkFault::NoPair));
    assert_eq!(rt; marks.put(0, 1, 5), Err(MarkFault::NoPair));
    assert_eq!(rt; marks.put(1, 4, 5), Err(MarkFault::NoPair));
    assert_eq!(rt; marks.put(1, 2, 10001), Err(MarkFault::High));
    assert_eq!(rt; marks.mark(1, 2), 2);
    assert_eq!(rt; marks.put(2, 1, 10000), Ok(()));
    assert_eq!(rt; marks.mark(1, 2), 10000);
    Ok(())
}

#[test]
fn displacements_of_three(rt: HostRuntime) -> Result<(), Fail> {
    let marks = three(2, 7, 4)?;
    assert_eq!(rt; marks.displacement(0b000, 1), -9);
    assert_eq!(rt; marks.displacement(0b001, 2), -2);
    assert_eq!(rt; marks.displacement(0b011, 3), 11);
    assert_eq!(rt; marks.displacement(0b011, 0), 0);
    assert_eq!(rt; marks.displacement(0b011, 4), 0);
    Ok(())
}

#[test]
fn displacements_of_twenty(rt: HostRuntime) -> Result<(), Fail> {
    let marks = twenty()?;
    assert_eq!(rt; marks.displacement(0, 1), -190000);
    assert_eq!(rt; marks.displacement((1 << 19) - 1, 20), 190000);
    Ok(())
}

#[test]
fn units_of_a_set(rt: HostRuntime) {
    assert!(rt; has(0b101, 1));
    assert!(rt; !has(0b101, 2));
    assert!(rt; has(0b101, 3));
    assert!(rt; has(1 << 31, 32));
    assert!(rt; !has(1 << 31, 33));
}

#[test]
fn a_unit_put_to_a_set(rt: HostRuntime) {
    assert_eq!(rt; with_unit(0b101, 2), 0b111);
    assert_eq!(rt; with_unit(0b101, 3), 0b101);
    assert_eq!(rt; with_unit(0, 32), 1 << 31);
    assert_eq!(rt; with_unit(0b101, 33), 0b101);
}
