// What the search over sets answers for a sheet of at most eight units.
use samples::rows::{LENT, Row};
use samples::sheets::Sheet;
use search::best::{SearchFault, best};
use std::alloc::{AllocError, Global};
use yardsticks::yardstick::Yardstick;

// As many sets as eight units have.
const SETS: usize = 256;

// A sheet, with tables for the search by a yardstick: two, as the search takes them.
#[derive(Drop)]
pub struct Asked<'a, Y: Yardstick> {
    sheet: &'a Sheet,
    totals: Vec<Y::Total>,
    counts: Vec<u64>,
}

impl<'a, Y: Yardstick> Asked<'a, Y> {
    pub fn new(heap: Global, sheet: &'a Sheet) -> Result<Asked<'a, Y>, AllocError> {
        Ok(Asked {
            sheet,
            totals: vec![in heap; Y::zero(); SETS]?,
            counts: vec![in heap; 0; SETS]?,
        })
    }

    // The greatest total and the count, with the k-th best order in the row; the tables are 0 before.
    pub fn best(&mut self, k: u64, row: &mut Row) -> Result<(Y::Total, u64), SearchFault> {
        let Sheet { marks, ties } = self.sheet;
        for total in self.totals.iter_mut() {
            *total = Y::zero();
        }
        self.counts.fill(0);
        let row = &mut row[..LENT];
        best::<Y>(marks, ties, k, &mut self.totals, &mut self.counts, row)
    }
}
