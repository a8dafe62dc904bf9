// A sheet of three units, and what is asked of it.
use sheet::faults::{AnswerFault, SheetFault};
use sheet::sheet::Sheet;
use yardsticks::spread::Spread;

// A sheet of three units with the marks 2 of 1 and 2, 7 of 1 and 3, 4 of 2 and 3.
pub fn three() -> Result<Sheet, SheetFault> {
    let mut sheet = Sheet::new();
    sheet.open(3)?;
    sheet.write(1, 2, 2)?;
    sheet.write(3, 1, 7)?;
    sheet.write(2, 3, 4)?;
    Ok(sheet)
}

// What ranking by spread answers with tables of eight cells.
pub fn ranked(sheet: &Sheet, k: u64, row: &mut [u8]) -> Result<(u64, u64), AnswerFault> {
    let mut totals = [0; 8];
    let mut counts = [0; 8];
    sheet.rank::<Spread>(k, &mut totals, &mut counts, row)
}
