// Tests of the lines of answers.
#![tactic(auto)]

#[cfg(test)]
mod limits;
#[cfg(test)]
mod lines;
