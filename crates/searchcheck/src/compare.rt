// The search over sets beside the search of all orders.
use crate::asked::Asked;
use crate::plain::{Best, search_all};
use samples::plain::Plain;
use samples::rows::{REST, Row};
use samples::sheets::Sheet;
use search::best::SearchFault;
use std::alloc::{AllocError, Global};
use yardsticks::gradient::Gradient;
use yardsticks::spread::Spread;
use yardsticks::target::Target;

// At most so many orders of a sheet are asked for by one yardstick; of more, some at equal distances.
const MOST_ASKED: usize = 800;

// What was compared so far. Not one type with that of the comparison of moves, which counts other things.
#[derive(Default, Drop)]
pub struct Tally {
    pub sheets: u64,
    pub circles: u64,
    pub orders: u64,
    pub disagreements: u64,
}

impl Tally {
    // Counts a disagreement unless the two searches agree.
    fn note(&mut self, agree: bool) {
        if !agree {
            self.disagreements = self.disagreements.saturating_add(1);
        }
    }
}

// Whether the k-th order is refused with a fault, and the row left as it was.
fn refuses<Y: Plain>(asked: &mut Asked<'_, Y>, k: u64, fault: SearchFault) -> bool {
    let mut row = [REST; 20];
    asked.best(k, &mut row) == Err(fault) && row == [REST; 20]
}

// Whether total, count and k-th order are those of the plain search.
fn agrees<Y: Plain>(asked: &mut Asked<'_, Y>, plain: &Best<Y::Total>, k: u64, order: &Row) -> bool {
    let mut row = [REST; 20];
    let count = plain.orders.len() as u64;
    asked.best(k, &mut row) == Ok((plain.total, count)) && row == *order
}

// Compares the best orders of a sheet that has some: all, or some at equal distances and the last.
fn compare_orders<Y: Plain>(asked: &mut Asked<'_, Y>, plain: &Best<Y::Total>, tally: &mut Tally) {
    let count = plain.orders.len();
    let apart = count.saturating_sub(1) / MOST_ASKED + 1;
    for (order, k) in plain.orders.iter().zip(1..).step_by(apart) {
        tally.note(agrees(asked, plain, k, order));
        tally.orders = tally.orders.saturating_add(1);
    }
    let count = count as u64;
    if let Some(order) = plain.orders.last() {
        tally.note(agrees(asked, plain, count, order));
    }
    tally.note(refuses(asked, 0, SearchFault::Number));
    tally.note(refuses(asked, count.saturating_add(1), SearchFault::Number));
}

// Compares both searches by one yardstick. Answers whether the sheet has a circle.
fn compare_by<Y: Plain>(
    heap: Global,
    sheet: &Sheet,
    tally: &mut Tally,
) -> Result<bool, AllocError> {
    let mut asked = Asked::<Y>::new(heap, sheet)?;
    let plain = search_all::<Y>(heap, sheet)?;
    match &plain {
        Some(plain) => compare_orders(&mut asked, plain, tally),
        None => tally.note(refuses(&mut asked, 1, SearchFault::Circle)),
    }
    Ok(plain.is_none())
}

// Compares both searches of a sheet by all three yardsticks.
pub fn compare_sheet(heap: Global, sheet: &Sheet, tally: &mut Tally) -> Result<(), AllocError> {
    let circle = compare_by::<Spread>(heap, sheet, tally)?;
    compare_by::<Gradient>(heap, sheet, tally)?;
    compare_by::<Target>(heap, sheet, tally)?;
    tally.sheets = tally.sheets.saturating_add(1);
    if circle {
        tally.circles = tally.circles.saturating_add(1);
    }
    Ok(())
}
