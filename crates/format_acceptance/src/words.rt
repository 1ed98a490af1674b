//! A random source of listed words, for tests.

ghost use Rattle.std.specs.Prelude.{ℕ, List};
ghost use Rattle.rand_core.specs.Steps.{stream_of, steps_u32};
ghost use Rattle.format_acceptance.specs.Words.{next_of};

use rand_core::Rng;
use rand_core::utils::{self, NextWord};
use std::marker::Model;

/// Words in order, and zeros behind the last.
#[derive(Drop)]
pub struct Words(pub &'static [u32]);

impl Model for Words {
    ghost Value = { List ℕ };

    ghost view = { λ words. words.0.now };
}

impl NextWord<u32> for Words {
    ghost step = { next_of };

    fn next_word(&mut self) -> u32 {
        match self.0.split_first() {
            None => 0,
            Some((word, rest)) => {
                self.0 = rest;
                *word
            }
        }
    }
}

impl Rng for Words {
    ghost stream = { stream_of (steps_u32 next_of) };

    fn next_u32(&mut self) -> u32 {
        self.next_word()
    }

    fn next_u64(&mut self) -> u64 {
        utils::next_u64_via_u32(self)
    }

    fn fill_bytes(&mut self, dst: &mut [u8]) {
        utils::fill_bytes_via_u32(self, dst)
    }
}
