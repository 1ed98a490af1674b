//! Tests of hostile use: whole runs, and the calls below them, over sources that give one byte at a time or
//! fail, sinks that fail, mails that are cut, malformed or too long, keys at the edge of what is accepted, and
//! hash functions that give zeros or ones.
#![tactic(auto)]

#[cfg(test)]
mod keys;
#[cfg(test)]
mod runs;
#[cfg(test)]
mod stanzas;
#[cfg(test)]
mod texts;
#[cfg(test)]
mod zeros;
