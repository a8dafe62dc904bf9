// The search over sets of units: whether the ties have a circle, the tables of greatest totals and their counts, and the
// best orders by number.
#![tactic(auto)]

pub mod best;
pub mod circle;
mod fill;
mod list;
mod sets;
mod tables;
