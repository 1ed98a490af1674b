//! Tests of HPKE's parts, contexts and single shots.
#![tactic(auto)]

#[cfg(test)]
mod parts;
