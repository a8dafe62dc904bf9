// Tests of the sheet and its nine calls.
#![tactic(auto)]

#[cfg(test)]
mod answers;
#[cfg(test)]
mod changes;
#[cfg(test)]
mod refusals;
mod three;
