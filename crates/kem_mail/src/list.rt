//! Lists of byte strings: the messages of a mail.

ghost use Rattle.std.specs.Prelude.{◌≡◌, ◌==◌, ◌∷◌, ◌++◌, [], length, map, slice_get, OnErr, OnOk};
ghost use Rattle.std.specs.Option.{option_copied};

use std::alloc::{AllocError, Global};
use std::marker::Model;

/// The messages of a mail, in order.
#[derive(Drop)]
pub struct MessageList {
    messages: Vec<Vec<u8>>,
}

impl Model for MessageList {
    ghost use Rattle.std.specs.Prelude.{ℕ, List, map};

    ghost Value = { List (List ℕ) };

    ghost view = { λ list. map (λ message. message.items) list.messages.items };
}

impl MessageList {
    // A list of no messages. It takes no memory.
    pub(crate) fn new(alloc: Global) -> MessageList
        ensures { result ≡ [] }
    {
        MessageList {
            messages: Vec::new(alloc),
        }
    }

    // Puts a message behind the others. Where memory is refused the list stands as it was.
    pub(crate) fn push(&mut self, message: Vec<u8>) -> Result<(), AllocError>
        ensures pushed { OnOk result (self.new ≡ self.old ++ message.items ∷ []) }
        ensures refused { OnErr result (self.new ≡ self.old) }
    {
        self.messages.push(message)?;
        Ok(())
    }

    /// The messages of a list. It takes no memory.
    pub fn from_vecs(items: Vec<Vec<u8>>) -> MessageList
        ensures { result ≡ map (λ item. item.items) items.items }
    {
        MessageList { messages: items }
    }

    /// The list of the messages. It takes no memory.
    pub fn into_vecs(self) -> Vec<Vec<u8>>
        ensures { map (λ item. item.items) result.items ≡ self }
    {
        self.messages
    }

    /// How many messages there are.
    pub fn len(&self) -> usize
        ensures { result ≡ length self.now }
    {
        self.messages.len()
    }

    /// Whether there are no messages.
    pub fn is_empty(&self) -> bool
        ensures { result ≡ (length self.now == 0) }
    {
        self.messages.len() == 0
    }

    /// The message at a place from 0, or none where the place is the length or more.
    pub fn get(&self, i: usize) -> Option<&[u8]>
        ensures { option_copied result ≡ slice_get self.now i }
    {
        match self.messages.get(i) {
            None => None,
            Some(message) => Some(message.as_slice()),
        }
    }
}
