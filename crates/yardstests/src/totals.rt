// Three units with the marks 2, 7 and 4.
use samples::sheets::three;
use std::test::Fail;
use yardsticks::gradient::{Grades, Gradient};
use yardsticks::spread::Spread;
use yardsticks::target::Target;
use yardsticks::total::{gradient_total, spread_total, target_total, total};

fn grades(signs: i32, rises: i32) -> Grades {
    Grades { signs, rises }
}

#[test]
fn spread(rt: HostRuntime) -> Result<(), Fail> {
    let marks = three(2, 7, 4)?;
    assert_eq!(rt; spread_total(&marks, &[1, 2, 3]), Some(206));
    assert_eq!(rt; spread_total(&marks, &[3, 2, 1, 9]), Some(206));
    assert_eq!(rt; total::<Spread>(&marks, &[1, 2, 3]), Some(206));
    assert_eq!(rt; total::<Spread>(&marks, &[3, 2, 1, 9]), Some(206));
    Ok(())
}

#[test]
fn gradients(rt: HostRuntime) -> Result<(), Fail> {
    let marks = three(2, 7, 4)?;
    assert_eq!(rt; gradient_total(&marks, &[1, 3, 2]), Some(grades(-2, -7)));
    assert_eq!(rt; gradient_total(&marks, &[1, 2, 3]), Some(grades(2, 8)));
    assert_eq!(rt; gradient_total(&marks, &[2, 1, 3]), Some(grades(0, -1)));
    assert_eq!(rt; total::<Gradient>(&marks, &[1, 3, 2]), Some(grades(-2, -7)));
    assert_eq!(rt; total::<Gradient>(&marks, &[1, 2, 3]), Some(grades(2, 8)));
    assert_eq!(rt; total::<Gradient>(&marks, &[2, 1, 3]), Some(grades(0, -1)));
    Ok(())
}

#[test]
fn grades_compared_and_printed(rt: HostRuntime) -> Result<(), Fail> {
    assert!(rt; grades(2, 8) > grades(0, 9));
    assert!(rt; grades(0, 9) > grades(0, -1));
    let first = Grades { signs: 2, rises: 8 };
    let second = Grades {
        signs: -4,
        rises: -15,
    };
    assert_eq!(rt; first + second, grades(-2, -7));
    let text = format!(in rt.alloc(); "{}", grades(-2, -7))?;
    assert_eq!(rt; text.as_str(), "-2,-7");
    Ok(())
}

#[test]
fn target(rt: HostRuntime) -> Result<(), Fail> {
    let marks = three(2, 7, 4)?;
    assert_eq!(rt; target_total(&marks, &[2, 1, 3]), Some(17));
    assert_eq!(rt; target_total(&marks, &[1, 2, 3]), Some(20));
    assert_eq!(rt; total::<Target>(&marks, &[2, 1, 3]), Some(17));
    assert_eq!(rt; total::<Target>(&marks, &[1, 2, 3]), Some(20));
    Ok(())
}

#[test]
fn no_order(rt: HostRuntime) -> Result<(), Fail> {
    let marks = three(2, 7, 4)?;
    assert_eq!(rt; spread_total(&marks, &[1, 2]), None);
    assert_eq!(rt; spread_total(&marks, &[1, 2, 2]), None);
    assert_eq!(rt; gradient_total(&marks, &[1, 2, 2]), None);
    assert_eq!(rt; target_total(&marks, &[1, 2, 4]), None);
    assert_eq!(rt; target_total(&marks, &[0, 1, 2]), None);
    assert_eq!(rt; total::<Spread>(&marks, &[1, 2]), None);
    assert_eq!(rt; total::<Spread>(&marks, &[1, 2, 2]), None);
    assert_eq!(rt; total::<Target>(&marks, &[1, 2, 4]), None);
    assert_eq!(rt; total::<Target>(&marks, &[0, 1, 2]), None);
    Ok(())
}
