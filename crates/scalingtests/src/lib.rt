// Tests of coordinates and comparisons.
#![tactic(auto)]

#[cfg(test)]
mod comparisons;
#[cfg(test)]
mod coordinates;
