// Three units with the marks 2, 7 and 4, and improving by spread.
use marks::ties::Ties;
use moves::improve::{Improvement, MoveFault, improve};
use moves::kind::MoveKind;
use samples::sheets::{self, Sheet};
use yardsticks::spread::Spread;

// The three units, and no tie among some units.
pub fn three(tied_units: u64) -> Option<Sheet> {
    Some(Sheet {
        marks: sheets::three(2, 7, 4).ok()?,
        ties: Ties::new(tied_units)?,
    })
}

// Improves the order in a row by one kind of move.
pub fn improved<M: MoveKind>(
    sheet: &Sheet,
    limit: u32,
    row: &mut [u8],
) -> Result<Improvement<u64>, MoveFault> {
    improve::<M, Spread>(&sheet.marks, &sheet.ties, limit, row)
}
