// Twenty units whose marks are all 10,000.
use samples::sheets::{ROW, twenty};
use std::test::Fail;
use yardsticks::gradient::{Grades, Gradient};
use yardsticks::spread::Spread;
use yardsticks::target::Target;
use yardsticks::total::total;
use yardsticks::yardstick::Yardstick;

#[test]
fn spread(rt: HostRuntime) -> Result<(), Fail> {
    let marks = twenty()?;
    assert_eq!(rt; <Spread as Yardstick>::step(&marks, 0, 1), 36_100_000_000);
    assert_eq!(rt; total::<Spread>(&marks, &ROW), Some(266_000_000_000));
    Ok(())
}

#[test]
fn target(rt: HostRuntime) -> Result<(), Fail> {
    let marks = twenty()?;
    assert_eq!(rt; <Target as Yardstick>::step(&marks, 0, 1), 0);
    assert_eq!(rt; total::<Target>(&marks, &ROW), Some(13_300_000));
    Ok(())
}

#[test]
fn gradient(rt: HostRuntime) -> Result<(), Fail> {
    let marks = twenty()?;
    let step = <Gradient as Yardstick>::step(&marks, 0, 1);
    assert_eq!(rt; step, Grades { signs: 0, rises: 0 });
    Ok(())
}
