//! A random source that gives the words it was handed.

ghost use Rattle.std.specs.Prelude.{ℕ, List, [], ◌∷◌};
ghost use Rattle.rand_core.specs.Steps.{stream_of, steps_u32};

use rand_core::Rng;
use rand_core::utils::{self, NextWord};
use std::marker::Model;

/// It gives these words, and then zeros.
#[derive(Drop)]
pub(crate) struct Words<'w> {
    left: &'w [u32],
}

impl<'w> Model for Words<'w> {
    ghost Value = { List ℕ };

    ghost view = { λ words. words.left.now };
}

impl<'w> Words<'w> {
    /// A source of these.
    pub(crate) fn new(words: &'w [u32]) -> Words<'w> {
        Words { left: words }
    }
}

impl NextWord<u32> for Words<'_> {
    ghost step = { λ words. elim words [ [] ↦ (0, []) | word ∷ rest ↦ (word, rest) ] };

    fn next_word(&mut self) -> u32 {
        match self.left.split_first() {
            None => 0,
            Some((word, rest)) => {
                self.left = rest;
                *word
            }
        }
    }
}

impl Rng for Words<'_> {
    ghost stream = { stream_of (steps_u32 (λ words. elim words [ [] ↦ (0, []) | word ∷ rest ↦ (word, rest) ])) };

    fn next_u32(&mut self) -> u32 {
        self.next_word()
    }

    fn next_u64(&mut self) -> u64 {
        utils::next_u64_via_u32(self)
    }

    fn fill_bytes(&mut self, dst: &mut [u8]) {
        utils::fill_bytes_via_u32(self, dst)
    }
}

/// Words that make no grease.
pub(crate) const NO_GREASE: [u32; 4] = [1080027788, 4028719657, 3727680608, 847524246];

/// Words that make grease before the first stanza, and none before the second.
pub(crate) fn grease_first() -> [u32; 30] {
    [
        3680337124, 399791502, 3184671710, 3559557540, 2344434602, 2688611525, 3467360488,
        275676192, 2326600915, 3075218641, 2860228538, 3781818234, 2493093175, 3041622704,
        2281902416, 3281726034, 3033838390, 3177167909, 1164161748, 3874940161, 1965119959,
        2922777019, 3809314219, 198557917, 3988001182, 2031931701, 2499950166, 1340339039,
        844529061, 1648788862,
    ]
}
