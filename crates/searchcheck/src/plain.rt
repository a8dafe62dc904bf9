// The search of all orders, one after the other in label order.
use samples::plain::Plain;
use samples::rows::{Row, advance, first_row, keeps_ties};
use samples::sheets::Sheet;
use std::alloc::{AllocError, Global};
use std::cmp::Ordering;

// As many orders as eight units have.
const MOST: u32 = 40320;

// The greatest total, and all orders that reach it, in label order.
#[derive(Drop)]
pub struct Best<T> {
    pub total: T,
    pub orders: Vec<Row>,
}

impl<T: Ord + Copy> Best<T> {
    // Takes in the next order that keeps the ties.
    fn take_in(&mut self, total: T, row: Row) -> Result<(), AllocError> {
        match total.cmp(&self.total) {
            Ordering::Less => return Ok(()),
            Ordering::Equal => {}
            Ordering::Greater => {
                self.orders.clear();
                self.total = total;
            }
        }
        self.orders.push(row)?;
        Ok(())
    }
}

// What an order makes of the best so far.
fn with_order<T: Ord + Copy>(
    heap: Global,
    best: Option<Best<T>>,
    total: T,
    row: Row,
) -> Result<Option<Best<T>>, AllocError> {
    let mut best = match best {
        Some(best) => best,
        None => Best {
            total,
            orders: Vec::new(heap),
        },
    };
    best.take_in(total, row)?;
    Ok(Some(best))
}

// Goes through all orders of a sheet of at most eight units; none if no order keeps the ties.
pub fn search_all<Y: Plain>(
    heap: Global,
    sheet: &Sheet,
) -> Result<Option<Best<Y::Total>>, AllocError> {
    let mut best = None;
    let units = sheet.marks.size();
    let mut row = first_row(units.count);
    for _ in 0..MOST {
        if keeps_ties(&sheet.ties, &row[..units.count]) {
            let total = Y::plain_total(&sheet.marks, &row);
            best = with_order(heap, best, total, row)?;
        }
        if !advance(&mut row[..units.count]) {
            break;
        }
    }
    Ok(best)
}
