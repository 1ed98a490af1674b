//! Stanzas, the strings of their header lines, and the strict reader.

ghost use Rattle.std.specs.Prelude.{◌≡◌};
ghost use Rattle.std.specs.Str.{bytes_eq};
ghost use Rattle.std.specs.String.{string_bytes};

mod borrowed;
pub mod read;

pub use borrowed::AgeStanza;
pub use read::{ReadRefused, is_arbitrary_string};

/// A stanza that owns its parts.
///
/// It has a spelling where the tag and each argument are one or more bytes from 33 to 126.
#[derive(Debug, PartialEq, Eq, Drop)]
pub struct Stanza {
    /// What kind of stanza it is.
    pub tag: String,
    /// What follows the tag on its line.
    pub args: Vec<String>,
    /// The bytes that the lines below it spell in base64.
    pub body: Vec<u8>,
}

impl Stanza {
    /// Whether this is its tag.
    pub fn has_tag(&self, tag: &str) -> bool
        ensures { result ≡ bytes_eq (string_bytes self.now.tag) tag.now }
    {
        self.tag.as_str() == tag
    }
}
