// The marks and ties of a sheet without gaps, and the tests of a row.
#![tactic(auto)]

pub mod faults;
pub mod marks;
pub mod rows;
pub mod sets;
pub mod ties;
pub mod units;
