// A sheet of 2 to 20 units, and the nine calls on it.
#![tactic(auto)]

pub mod faults;
pub mod sheet;
