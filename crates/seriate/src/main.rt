// Orders the twelve graves of a site: a pair that nobody compared is refused, then the best orders are listed by each
// yardstick, the best by spread is scaled and checked, and the old way of exchanging is compared with it.
#![tactic(auto)]

use rankings::show;
use rows::{show_line, show_moves};
use sheet::sheet::Sheet;
use site::{complete, fill};
use yardsticks::gradient::Gradient;
use yardsticks::spread::Spread;
use yardsticks::target::Target;

mod rankings;
mod rows;
mod site;

// A row that keeps the ties and is far from the best. Twelve places, since the site has twelve graves.
const START: [u8; 12] = [12, 5, 10, 9, 2, 7, 6, 3, 4, 1, 8, 11];

fn run(rt: &HostRuntime) -> anyhow::Result<()> {
    let mut sheet = Sheet::new();
    let mut row = [0; 12];
    fill(&mut sheet)?;
    println!(rt; "twelve units, one pair not compared")?;
    show::<Spread>(rt, &sheet, "spread", &mut row)?;
    complete(&mut sheet)?;
    println!(rt; "all pairs compared")?;
    show::<Gradient>(rt, &sheet, "gradient", &mut row)?;
    show::<Target>(rt, &sheet, "target", &mut row)?;
    show::<Spread>(rt, &sheet, "spread", &mut row)?;
    show_line(rt, &sheet, &row)?;
    show_moves(rt, &sheet, &START)
}

fn main(rt: HostRuntime) -> anyhow::Result<()> {
    run(&rt)
}
