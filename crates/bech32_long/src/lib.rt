//! Bech32 (BIP 173) with no limit on the length of a text: a human-readable part and bytes as one line
//! of text with a checksum.
#![tactic(auto)]

mod checksum;
mod code;
mod error;
mod groups;
mod hrp;
pub mod laws;
mod text;

pub use code::{decode, encode, encode_to_slice, encoded_len};
pub use error::{BadHrp, Bech32Error};
pub use hrp::Hrp;
