//! Tests of single calls by tables of an independent model: what is sent, what the strict reader takes, and
//! texts in Bech32; and of phases that age 1.1.1 and a plugin said to each other.
#![tactic(auto)]

#[cfg(test)]
mod bech32;
#[cfg(test)]
mod conversations;
#[cfg(test)]
mod phases;
#[cfg(test)]
mod reads;
#[cfg(test)]
mod sends;
#[cfg(test)]
mod tests;
#[cfg(test)]
mod texts;
#[cfg(test)]
mod words;
