// Each refusal of the calls that answer, in the order of the tests, and what it leaves.
use crate::three::{ranked, three};
use moves::interchange::Interchange;
use sheet::faults::AnswerFault;
use sheet::sheet::Sheet;
use std::test::Fail;
use yardsticks::spread::Spread;

#[test]
fn numbers(rt: HostRuntime) {
    assert_eq!(rt; AnswerFault::Short.number(), 5);
    assert_eq!(rt; AnswerFault::NoRow.number(), 6);
    assert_eq!(rt; AnswerFault::Gap(1, 3).number(), 7);
    assert_eq!(rt; AnswerFault::Circle.number(), 8);
    assert_eq!(rt; AnswerFault::Against.number(), 9);
    assert_eq!(rt; AnswerFault::Number.number(), 10);
}

#[test]
fn a_gap_is_named(rt: HostRuntime) -> Result<(), Fail> {
    let mut sheet = three()?;
    sheet.blank(1, 3)?;
    let mut totals = [5; 8];
    let mut counts = [6; 8];
    let mut row = [7; 3];
    let gap = sheet.rank::<Spread>(1, &mut totals, &mut counts, &mut row);
    assert_eq!(rt; gap, Err(AnswerFault::Gap(1, 3)));
    assert_eq!(rt; totals, [5; 8]);
    assert_eq!(rt; counts, [6; 8]);
    assert_eq!(rt; row, [7, 7, 7]);
    Ok(())
}

#[test]
fn a_circle(rt: HostRuntime) -> Result<(), Fail> {
    let mut sheet = three()?;
    sheet.tie(1, 2)?;
    sheet.tie(2, 1)?;
    let mut row = [7; 3];
    assert_eq!(rt; ranked(&sheet, 0, &mut row), Err(AnswerFault::Circle));
    assert_eq!(rt; row, [7, 7, 7]);
    Ok(())
}

#[test]
fn a_number_fills_the_tables(rt: HostRuntime) -> Result<(), Fail> {
    let sheet = three()?;
    let mut totals = [5; 9];
    let mut counts = [6; 9];
    let mut row = [7; 3];
    let none = sheet.rank::<Spread>(3, &mut totals, &mut counts, &mut row);
    assert_eq!(rt; none, Err(AnswerFault::Number));
    assert_eq!(rt; counts, [2, 1, 1, 1, 1, 1, 1, 1, 6]);
    assert_eq!(rt; (totals[0], totals[7], totals[8]), (206, 0, 5));
    assert_eq!(rt; row, [7, 7, 7]);
    Ok(())
}

// The refusals of score, scale, check and improve on a row.
fn by_row(sheet: &Sheet, row: &mut [u8], list: &mut [i64]) -> [Option<AnswerFault>; 4] {
    [
        sheet.score::<Spread>(row).err(),
        sheet.scale(row, list).err(),
        sheet.check(row).err(),
        sheet.improve::<Interchange, Spread>(3, row).err(),
    ]
}

#[test]
fn rows(rt: HostRuntime) -> Result<(), Fail> {
    let short = Some(AnswerFault::Short);
    let no_row = Some(AnswerFault::NoRow);
    let gap = Some(AnswerFault::Gap(2, 3));
    let against = Some(AnswerFault::Against);
    let mut sheet = three()?;
    let mut list = [8; 3];
    assert_eq!(rt; by_row(&sheet, &mut [1, 2], &mut list), [short; 4]);
    assert_eq!(rt; by_row(&sheet, &mut [1, 2, 2], &mut list), [no_row; 4]);
    sheet.blank(2, 3)?;
    sheet.tie(3, 1)?;
    assert_eq!(rt; by_row(&sheet, &mut [1, 2, 4], &mut list), [no_row; 4]);
    assert_eq!(rt; by_row(&sheet, &mut [1, 2, 3], &mut list), [gap; 4]);
    assert_eq!(rt; list, [8, 8, 8]);
    sheet.write(2, 3, 4)?;
    assert_eq!(rt;
        by_row(&sheet, &mut [1, 2, 3], &mut list),
        [against, None, None, against]
    );
    Ok(())
}

#[test]
fn short_before_all(rt: HostRuntime) {
    let sheet = Sheet::new();
    let mut row = [0; 2];
    let mut totals = [5; 4];
    let mut counts = [6; 3];
    let short = sheet.rank::<Spread>(1, &mut totals, &mut counts, &mut row);
    assert_eq!(rt; short, Err(AnswerFault::Short));
    assert_eq!(rt; totals, [5; 4]);
    assert_eq!(rt; sheet.scale(&[0, 0], &mut [1]), Err(AnswerFault::Short));
    assert_eq!(rt; ranked(&sheet, 1, &mut [0]), Err(AnswerFault::Short));
    assert_eq!(rt; ranked(&sheet, 0, &mut row), Err(AnswerFault::Gap(1, 2)));
}
