//! Tests of choices, and of what is compared, selected and assigned by them.
#![tactic(auto)]

#[cfg(test)]
mod choices;
#[cfg(test)]
mod options;
