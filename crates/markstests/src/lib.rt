// Tests of marks, ties and rows.
#![tactic(auto)]

#[cfg(test)]
mod numbers;
#[cfg(test)]
mod rows;
