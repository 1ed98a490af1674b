//! Tests of stanzas, of their readers and writers, and of the phases of a conversation.
#![tactic(auto)]

#[cfg(test)]
mod adapters;
#[cfg(test)]
mod asking;
#[cfg(test)]
mod bidir;
#[cfg(test)]
mod copies;
#[cfg(test)]
mod legacy;
#[cfg(test)]
mod memory;
#[cfg(test)]
mod phases;
#[cfg(test)]
mod reading;
#[cfg(test)]
mod receiving;
#[cfg(test)]
mod replies;
#[cfg(test)]
mod sends;
#[cfg(test)]
mod stanzas;
