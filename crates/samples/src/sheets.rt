// Sheets without gaps: pseudo-random ones, and fixed ones for tests.
use crate::numbers::Numbers;
use marks::faults::MarkFault;
use marks::marks::Marks;
use marks::ties::Ties;
use marks::units::Units;

#[derive(Clone, Copy)]
pub struct Sheet {
    pub marks: Marks,
    pub ties: Ties,
}

// The labels of twenty units in order.
pub const ROW: [u8; 20] = [
    1, 2, 3, 4, 5, 6, 7, 8, 9, 10, 11, 12, 13, 14, 15, 16, 17, 18, 19, 20,
];

// Marks from 0 to a greatest one, which is at most 3, so that many totals are equal.
fn draw_marks(numbers: &mut Numbers, units: Units) -> Marks {
    let mut marks = Marks::blank(units);
    let greatest = numbers.below(4);
    for a in 1..=units.count {
        for b in a + 1..=units.count {
            let _ = marks.put(a, b, numbers.below(greatest + 1) as u16);
        }
    }
    marks
}

// At most as many ties as there are units, some of them in circles. No unit is tied before itself.
fn draw_ties(numbers: &mut Numbers, units: Units) -> Ties {
    let mut ties = Ties::none(units);
    let count = units.count as u64;
    for _ in 0..numbers.below(count + 1) {
        let a = numbers.label(count);
        let b = numbers.label(count);
        let _ = ties.set(a, b, true);
    }
    ties
}

// A pseudo-random sheet of some units; none unless there are 2 to 20.
pub fn draw(numbers: &mut Numbers, units: u64) -> Option<Sheet> {
    let units = Units::new(units)?;
    let marks = draw_marks(numbers, units);
    let ties = draw_ties(numbers, units);
    Some(Sheet { marks, ties })
}

// Three units: the mark of 1 and 2, of 1 and 3, and of 2 and 3.
pub fn three(first: u16, second: u16, third: u16) -> Result<Marks, MarkFault> {
    let mut marks = Marks::new(3).unwrap();
    marks.put(1, 2, first)?;
    marks.put(1, 3, second)?;
    marks.put(2, 3, third)?;
    Ok(marks)
}

// Twenty units whose marks are all 10,000.
pub fn twenty() -> Result<Marks, MarkFault> {
    let mut marks = Marks::blank(Units::MOST);
    for a in 1..=20 {
        for b in a + 1..=20 {
            marks.put(a, b, 10000)?;
        }
    }
    Ok(marks)
}
