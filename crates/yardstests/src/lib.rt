// Tests of the yardsticks: totals of the worked examples, and the greatest step.
#![tactic(auto)]

#[cfg(test)]
mod extremes;
#[cfg(test)]
mod totals;
