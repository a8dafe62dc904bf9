// What is said of one row: its coordinates, its pattern, its total, and what moves make of it.
use moves::improve::Improvement;
use moves::insertion::Insertion;
use moves::interchange::Interchange;
use moves::kind::MoveKind;
use sheet::sheet::Sheet;
use yardsticks::spread::Spread;

// Prints the displacements of an order, its loss, and the comparisons that it keeps and breaks.
pub fn show_line(rt: &HostRuntime, sheet: &Sheet, row: &[u8; 12]) -> anyhow::Result<()> {
    let mut list = [0; 12];
    let loss = sheet.scale(row, &mut list)?;
    println!(rt; "displacements {list:?}, loss {loss} twelfths")?;
    let (kept, broken) = sheet.check(row)?;
    println!(rt; "comparisons kept {kept}, broken {broken}")?;
    Ok(())
}

// Prints what moves of a kind make of a row.
fn improve<M: MoveKind>(rt: &HostRuntime, sheet: &Sheet, start: &[u8; 12]) -> anyhow::Result<()> {
    let mut row = *start;
    let Improvement {
        made,
        total,
        settled,
    } = sheet.improve::<M, Spread>(1000, &mut row)?;
    println!(rt; "  moves {made}, total {total}, settled {settled}: {row:?}")?;
    Ok(())
}

// Shows what exchanging and inserting find from a row, by spread.
pub fn show_moves(rt: &HostRuntime, sheet: &Sheet, start: &[u8; 12]) -> anyhow::Result<()> {
    let total = sheet.score::<Spread>(start)?;
    println!(rt; "from {start:?}, total {total}")?;
    println!(rt; "by interchange")?;
    improve::<Interchange>(rt, sheet, start)?;
    println!(rt; "by insertion")?;
    improve::<Insertion>(rt, sheet, start)
}
