// The best orders of a sheet of twelve units by a yardstick.
use sheet::sheet::Sheet;
use std::fmt::Display;
use yardsticks::yardstick::Yardstick;

// As many sets as twelve units have.
const SETS: usize = 4096;

// How many best orders are shown at most.
const SHOWN: u64 = 4;

// Asks for the k-th best order, and prints the refusal if there is none. Answers the greatest total and how many orders
// reach it.
fn ask<Y: Yardstick>(
    rt: &HostRuntime,
    sheet: &Sheet,
    k: u64,
    row: &mut [u8; 12],
) -> anyhow::Result<Option<(Y::Total, u64)>> {
    let mut totals = vec![in rt.alloc(); Y::zero(); SETS]?;
    let mut counts = vec![in rt.alloc(); 0; SETS]?;
    match sheet.rank::<Y>(k, &mut totals, &mut counts, row) {
        Ok(answer) => Ok(Some(answer)),
        Err(refusal) => {
            println!(rt; "{refusal}")?;
            Ok(None)
        }
    }
}

// Prints the first of some best orders.
fn list<Y: Yardstick>(rt: &HostRuntime, sheet: &Sheet, count: u64) -> anyhow::Result<()> {
    let mut row = [0; 12];
    for k in 1..=count.min(SHOWN) {
        ask::<Y>(rt, sheet, k, &mut row)?;
        println!(rt; "  order {k}: {row:?}")?;
    }
    Ok(())
}

// Shows the best orders by a yardstick, and leaves the first in the row.
pub fn show<Y: Yardstick>(
    rt: &HostRuntime,
    sheet: &Sheet,
    name: &str,
    row: &mut [u8; 12],
) -> anyhow::Result<()>
where
    Y::Total: Display,
{
    let Some((total, count)) = ask::<Y>(rt, sheet, 1, row)? else {
        return Ok(());
    };
    println!(rt; "by {name}: total {total}, best orders {count}")?;
    list::<Y>(rt, sheet, count)
}
