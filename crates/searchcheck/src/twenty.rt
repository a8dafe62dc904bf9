// Twenty units with all marks 0: all orders are best.
use marks::marks::Marks;
use marks::ties::Ties;
use marks::units::Units;
use search::best::best;
use yardsticks::spread::Spread;

// As many sets as twenty units have.
const SETS: usize = 1_048_576;

// Asks for the k-th order with tables of some cells, and prints the answer. Answers how many best orders there are, if the
// search does.
fn show(rt: &HostRuntime, cells: usize, k: u64) -> anyhow::Result<Option<u64>> {
    let marks = Marks::blank(Units::MOST);
    let ties = Ties::none(Units::MOST);
    let mut totals = vec![in rt.alloc(); 0; cells]?;
    let mut counts = vec![in rt.alloc(); 0; cells]?;
    let mut row = [0; 20];
    match best::<Spread>(&marks, &ties, k, &mut totals, &mut counts, &mut row) {
        Ok((total, count)) => {
            println!(rt; "twenty units: total {total}, count {count}, order {k}: {row:?}")?;
            Ok(Some(count))
        }
        Err(fault) => {
            println!(rt; "twenty units, tables of {cells} cells, order {k}: {fault}")?;
            Ok(None)
        }
    }
}

// Shows the first order and the last one, and that tables with one cell too few are refused.
pub fn show_twenty(rt: &HostRuntime) -> anyhow::Result<()> {
    if let Some(count) = show(rt, SETS, 1)? {
        show(rt, SETS, count)?;
    }
    show(rt, SETS - 1, 1)?;
    Ok(())
}
