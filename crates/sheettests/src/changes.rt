// Opening, writing, blanking, tying and untying, with each refusal and what it leaves.
use crate::three::{ranked, three};
use sheet::faults::{AnswerFault, Label, SheetFault};
use sheet::sheet::Sheet;
use std::process::Abort;
use std::test::Fail;

// The sheet still has the marks 2, 7 and 4, and no tie.
fn same(rt: &impl Abort, sheet: &Sheet) {
    let mut row = [9; 4];
    assert_eq!(rt; ranked(sheet, 2, &mut row), Ok((206, 2)));
    assert_eq!(rt; row, [3, 2, 1, 9]);
}

// The first label is none of the units', or the second.
const FIRST: Result<(), SheetFault> = Err(SheetFault::Stranger(Label::First));

const SECOND: Result<(), SheetFault> = Err(SheetFault::Stranger(Label::Second));

#[test]
fn numbers(rt: HostRuntime) {
    assert_eq!(rt; SheetFault::Size.number(), 1);
    assert_eq!(rt; SheetFault::Stranger(Label::First).number(), 2);
    assert_eq!(rt; SheetFault::Stranger(Label::Second).number(), 2);
    assert_eq!(rt; SheetFault::Itself(2, 2).number(), 3);
    assert_eq!(rt; SheetFault::High.number(), 4);
}

#[test]
fn sizes(rt: HostRuntime) -> Result<(), Fail> {
    let mut sheet = three()?;
    assert_eq!(rt; sheet.open(0), Err(SheetFault::Size));
    assert_eq!(rt; sheet.open(1), Err(SheetFault::Size));
    assert_eq!(rt; sheet.open(21), Err(SheetFault::Size));
    assert_eq!(rt; sheet.open(u64::MAX), Err(SheetFault::Size));
    same(&rt, &sheet);
    assert_eq!(rt; sheet.open(20), Ok(()));
    assert_eq!(rt; sheet.write(19, 20, 10000), Ok(()));
    Ok(())
}

#[test]
fn strangers_first(rt: HostRuntime) -> Result<(), Fail> {
    let mut sheet = three()?;
    assert_eq!(rt; sheet.write(4, 4, 10001), FIRST);
    assert_eq!(rt; sheet.write(0, 1, 5), FIRST);
    assert_eq!(rt; sheet.blank(1, u64::MAX), SECOND);
    assert_eq!(rt; sheet.tie(1, 4), SECOND);
    assert_eq!(rt; sheet.untie(0, 0), FIRST);
    same(&rt, &sheet);
    Ok(())
}

#[test]
fn then_itself_then_mark(rt: HostRuntime) -> Result<(), Fail> {
    let mut sheet = three()?;
    assert_eq!(rt; sheet.write(2, 2, 10001), Err(SheetFault::Itself(2, 2)));
    assert_eq!(rt; sheet.blank(2, 2), Err(SheetFault::Itself(2, 2)));
    assert_eq!(rt; sheet.tie(3, 3), Err(SheetFault::Itself(3, 3)));
    assert_eq!(rt; sheet.untie(1, 1), Err(SheetFault::Itself(1, 1)));
    assert_eq!(rt; sheet.write(1, 2, 10001), Err(SheetFault::High));
    same(&rt, &sheet);
    Ok(())
}

#[test]
fn which_label(rt: HostRuntime) -> Result<(), Fail> {
    let mut sheet = three()?;
    assert_eq!(rt; sheet.write(4, 5, 1), FIRST);
    assert_eq!(rt; sheet.tie(1, 5), SECOND);
    assert_eq!(rt; sheet.tie(1, 1), Err(SheetFault::Itself(1, 1)));
    Ok(())
}

#[test]
fn untie_takes_back(rt: HostRuntime) -> Result<(), Fail> {
    let mut sheet = three()?;
    let mut row = [0; 3];
    sheet.tie(3, 1)?;
    assert_eq!(rt; ranked(&sheet, 1, &mut row), Ok((206, 1)));
    assert_eq!(rt; row, [3, 2, 1]);
    sheet.untie(1, 3)?;
    assert_eq!(rt; ranked(&sheet, 2, &mut row), Err(AnswerFault::Number));
    sheet.untie(3, 1)?;
    same(&rt, &sheet);
    Ok(())
}
