//! Tests that cross crates: whole runs of the program over memory.
#![tactic(auto)]

#[cfg(test)]
mod mails;
#[cfg(test)]
mod runs;
#[cfg(test)]
mod sealing;
#[cfg(test)]
mod seals;
#[cfg(test)]
mod tests;
