// What the comparisons and the tests share: pseudo-random sheets, fixed sheets, rows, and totals straight from the marks.
#![tactic(auto)]

pub mod numbers;
pub mod plain;
pub mod rows;
pub mod sheets;
