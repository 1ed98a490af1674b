//! The items that a run writes.

ghost use Rattle.std.specs.Prelude.{◌≡◌, ◌∷◌, ◌++◌, [], length, slice_get, OnErr, OnOk, map};
ghost use Rattle.std.specs.Option.{option_copied};

use std::alloc::{AllocError, Global};
use std::marker::Model;

/// What a run writes, item by item.
#[derive(Drop)]
pub struct ItemList {
    items: Vec<Vec<u8>>,
}

impl Model for ItemList {
    ghost use Rattle.std.specs.Prelude.{ℕ, List, map};

    ghost Value = { List (List ℕ) };

    ghost view = { λ list. map (λ item. item.items) list.items.items };
}

impl ItemList {
    /// A list of no items. It takes no memory.
    pub fn new(alloc: Global) -> ItemList
        ensures { result ≡ [] }
    {
        ItemList {
            items: Vec::new(alloc),
        }
    }

    /// The items of a list. It takes no memory.
    pub fn from_vecs(items: Vec<Vec<u8>>) -> ItemList
        ensures { result ≡ map (λ item. item.items) items.items }
    {
        ItemList { items }
    }

    /// Puts an item behind the others. Where memory is refused the list stands as it was.
    pub fn push(&mut self, item: Vec<u8>) -> Result<(), AllocError>
        ensures pushed { OnOk result (self.new ≡ self.old ++ item.items ∷ []) }
        ensures refused { OnErr result (self.new ≡ self.old) }
    {
        self.items.push(item)?;
        Ok(())
    }

    /// How many items there are.
    pub fn len(&self) -> usize
        ensures { result ≡ length self.now }
    {
        self.items.len()
    }

    /// The item at a place from 0, or none where the place is the length or more.
    pub fn get(&self, i: usize) -> Option<&[u8]>
        ensures { option_copied result ≡ slice_get self.now i }
    {
        match self.items.get(i) {
            None => None,
            Some(item) => Some(item.as_slice()),
        }
    }
}
