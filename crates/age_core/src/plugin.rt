//! The plugin protocol: phases of stanzas between two sides.

mod asking;
mod bidir;
mod connection;
mod reply;
mod sending;
mod unidir;

pub use age_format::{PhaseError, StanzaReader};
pub use age_send::{finish_to, send_stanza_to, send_to};
pub use asking::BidirSend;
pub use bidir::Answer;
pub use connection::Connection;
pub use reply::{NoCommand, Reply, Response};
pub use sending::UnidirSend;
use thiserror::Error;
pub use unidir::UnidirAnswer;

/// The name of the state machine in which a plugin that holds identities is asked to open files.
pub const IDENTITY_V1: &str = "identity-v1";

/// The name of the state machine in which a plugin that holds recipients is asked to seal files.
pub const RECIPIENT_V1: &str = "recipient-v1";

/// What the other side answers in place of a stanza.
#[derive(Clone, Copy, Debug, PartialEq, Eq, Error)]
pub enum Error {
    /// It failed.
    #[error("General plugin protocol error")]
    Fail,
    /// It doesn't know the command.
    #[error("Unsupported command")]
    Unsupported,
}

/// What a command comes to: an answer of the other side, or why there is none.
pub type Result<T> = std::result::Result<std::result::Result<T, Error>, PhaseError>;
