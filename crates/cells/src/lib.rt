// The marks of all pairs of a sheet, gaps among them.
#![tactic(auto)]

pub mod triangle;
