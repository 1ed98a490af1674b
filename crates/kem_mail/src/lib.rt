//! Mails of stanzas: opening them over any KEM and with the lattice key of a seed, and sealing them to a lattice key.
#![tactic(auto)]

mod by_seed;
mod error;
pub mod laws;
mod list;
mod open;
mod seal;

pub use by_seed::open_mail;
pub use error::{MailError, SealMailError};
pub use list::MessageList;
pub use open::open_with;
pub use seal::seal_mail;
