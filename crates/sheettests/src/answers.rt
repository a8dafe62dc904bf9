// Worked examples of the calls that answer.
use crate::three::{ranked, three};
use moves::improve::Improvement;
use moves::interchange::Interchange;
use sheet::faults::{AnswerFault, SheetFault};
use sheet::sheet::Sheet;
use std::test::Fail;
use yardsticks::gradient::{Grades, Gradient};
use yardsticks::spread::Spread;
use yardsticks::target::Target;

#[test]
fn spread(rt: HostRuntime) -> Result<(), Fail> {
    let sheet = three()?;
    let mut row = [9; 5];
    assert_eq!(rt; ranked(&sheet, 1, &mut row), Ok((206, 2)));
    assert_eq!(rt; row, [1, 2, 3, 9, 9]);
    assert_eq!(rt; ranked(&sheet, 2, &mut row), Ok((206, 2)));
    assert_eq!(rt; row, [3, 2, 1, 9, 9]);
    assert_eq!(rt; ranked(&sheet, 3, &mut row), Err(AnswerFault::Number));
    Ok(())
}

// The gradient of a row.
fn grades(signs: i32, rises: i32) -> Result<Grades, AnswerFault> {
    Ok(Grades { signs, rises })
}

#[test]
fn other_yardsticks(rt: HostRuntime) -> Result<(), Fail> {
    let sheet = three()?;
    assert_eq!(rt; sheet.score::<Gradient>(&[1, 3, 2]), grades(-2, -7));
    assert_eq!(rt; sheet.score::<Gradient>(&[1, 2, 3]), grades(2, 8));
    assert_eq!(rt; sheet.score::<Target>(&[2, 1, 3]), Ok(17));
    Ok(())
}

#[test]
fn line_and_pattern(rt: HostRuntime) -> Result<(), Fail> {
    let sheet = three()?;
    let mut list = [9; 4];
    assert_eq!(rt; sheet.scale(&[1, 2, 3], &mut list), Ok(1));
    assert_eq!(rt; list, [-9, -2, 11, 9]);
    assert_eq!(rt; sheet.check(&[1, 3, 2]), Ok((0, 2)));
    Ok(())
}

// The answer that some moves were made, the total reached, and whether the row is settled.
fn found(made: u32, total: u64, settled: bool) -> Result<Improvement<u64>, AnswerFault> {
    Ok(Improvement {
        made,
        total,
        settled,
    })
}

#[test]
fn moves(rt: HostRuntime) -> Result<(), Fail> {
    let sheet = three()?;
    let mut row = [1, 3, 2, 9];
    assert_eq!(rt;
        sheet.improve::<Interchange, Spread>(2, &mut row),
        found(2, 206, true)
    );
    assert_eq!(rt; row, [3, 2, 1, 9]);
    let mut short = [1, 3, 2];
    assert_eq!(rt;
        sheet.improve::<Interchange, Spread>(1, &mut short),
        found(1, 182, false)
    );
    assert_eq!(rt; short, [3, 1, 2]);
    Ok(())
}

// A sheet of twenty units with all marks 0.
fn blank_twenty() -> Result<Sheet, SheetFault> {
    let mut sheet = Sheet::new();
    sheet.open(20)?;
    for a in 1..=20 {
        for b in a + 1..=20 {
            sheet.write(a, b, 0)?;
        }
    }
    Ok(sheet)
}

#[test]
fn twenty_units(rt: HostRuntime) -> Result<(), Fail> {
    let sheet = blank_twenty()?;
    let mut totals = vec![in rt.alloc(); 0; 1_048_575]?;
    let mut counts = vec![in rt.alloc(); 0; 1_048_576]?;
    let mut row = [0; 20];
    let short = sheet.rank::<Spread>(1, &mut totals, &mut counts, &mut row);
    assert_eq!(rt; short, Err(AnswerFault::Short));
    assert_eq!(rt; row, [0; 20]);
    Ok(())
}
