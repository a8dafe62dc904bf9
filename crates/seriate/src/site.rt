// A site of twelve graves: how unlike their goods are, pair by pair, and what cuts what.
use sheet::faults::SheetFault;
use sheet::sheet::Sheet;

// The marks, in rows one after another. Units 2 and 9 have the same goods.
const MARKS: [[u16; 12]; 12] = [
    [0, 181, 279, 180, 206, 389, 58, 187, 181, 384, 37, 134],
    [181, 0, 467, 314, 31, 615, 223, 363, 0, 501, 140, 304],
    [279, 467, 0, 97, 572, 95, 258, 125, 467, 84, 337, 223],
    [180, 314, 97, 0, 444, 260, 106, 33, 314, 211, 217, 57],
    [206, 31, 572, 444, 0, 673, 248, 484, 31, 623, 169, 381],
    [389, 615, 95, 260, 673, 0, 373, 178, 615, 103, 474, 317],
    [58, 223, 258, 106, 248, 373, 0, 157, 223, 288, 132, 47],
    [187, 363, 125, 33, 484, 178, 157, 0, 363, 121, 308, 133],
    [181, 0, 467, 314, 31, 615, 223, 363, 0, 501, 140, 304],
    [384, 501, 84, 211, 623, 103, 288, 121, 501, 0, 454, 258],
    [37, 140, 337, 217, 169, 474, 132, 308, 140, 454, 0, 186],
    [134, 304, 223, 57, 381, 317, 47, 133, 304, 258, 186, 0],
];

// The pair that nobody has compared yet.
const LATE: (u64, u64) = (3, 7);

// What stands earlier than what, where a cut was seen.
const TIES: [(u64, u64); 4] = [(5, 9), (2, 7), (7, 4), (12, 10)];

// Writes the marks of a unit and all later ones, but the pair that is not compared yet.
fn write_row(sheet: &mut Sheet, a: u64, row: &[u16; 12]) -> Result<(), SheetFault> {
    for (b, mark) in (1..).zip(row).skip(a as usize) {
        if (a, b) != LATE {
            sheet.write(a, b, u64::from(*mark))?;
        }
    }
    Ok(())
}

// Makes a sheet of the twelve units, with all marks but one.
pub fn fill(sheet: &mut Sheet) -> Result<(), SheetFault> {
    sheet.open(12)?;
    for (a, row) in (1..).zip(&MARKS) {
        write_row(sheet, a, row)?;
    }
    for (earlier, later) in TIES {
        sheet.tie(earlier, later)?;
    }
    Ok(())
}

// Writes the mark that was missing.
pub fn complete(sheet: &mut Sheet) -> Result<(), SheetFault> {
    let (a, b) = LATE;
    sheet.write(a, b, u64::from(MARKS[a as usize - 1][b as usize - 1]))
}
