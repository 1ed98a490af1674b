//! The output that is squeezed from a state, given piece by piece (FIPS 202, section 4).

ghost use Rattle.std.specs.Prelude.{◌≡◌, ℕ, List, ◌++◌, ◌+◌, ◌%◌, ◌<◌, ◌≤◌, drop, length, take};
ghost use Rattle.sha3.specs.Pieces.{IsRate, Left, Squeezes};
ghost use Rattle.sha3.specs.Sponge.{output, state_bytes};

use crate::keccak::{State, keccak_f};
use crate::sponge::{LANE_LEN, MAX_RATE};
use std::marker::Model;

/// An output that is given piece by piece: a block of it, and how many of that block's bytes are gone.
#[derive(Drop)]
pub(crate) struct Squeezer<const RATE: usize> {
    state: State,
    block: [u8; MAX_RATE],
    gone: usize,
}

impl<const RATE: usize> Model for Squeezer<RATE> {
    ghost use Rattle.std.specs.Prelude.{◌≤◌, take};
    ghost use Rattle.sha3.specs.Pieces.{Left, IsRate};

    ghost Value = { Left };

    ghost view = { λ s. record { state = s.state; block = take RATE s.block; gone = s.gone } };

    ghost invariant = { λ s. IsRate RATE × (s.gone ≤ RATE) };
}

// The first bytes of a state, as many as the longest block has.
#[inline(always)]
fn first_bytes(state: &State) -> [u8; MAX_RATE]
    ensures { result ≡ take 168 (state_bytes state.now) }
{
    let mut block = [0; MAX_RATE];
    for k in 0..MAX_RATE / LANE_LEN {
        let start = LANE_LEN * k;
        block[start..start + LANE_LEN].copy_from_slice(&state[k].to_le_bytes());
    }
    block
}

impl<const RATE: usize> Squeezer<RATE> {
    /// The output that is squeezed from a state, of which nothing was given.
    pub fn new(state: &State) -> Self
        requires { IsRate RATE }
        ensures { Squeezes RATE state.now result 0 }
    {
        let block = first_bytes(state);
        Squeezer {
            state: *state,
            block,
            gone: 0,
        }
    }

    /// Fills `out` with the next bytes of the output.
    pub fn read(&mut self, out: &mut [u8])
        ensures output { (from : List ℕ) (given : ℕ) → Squeezes RATE from self.old given
            → output RATE from (given + length out.old) ≡ output RATE from given ++ out.new }
        ensures given { (from : List ℕ) (given : ℕ) → Squeezes RATE from self.old given
            → Squeezes RATE from self.new (given + length out.old) }
    {
        let mut filled = 0;
        while filled < out.len() {
            self.refresh();
            filled += self.give(&mut out[filled..]);
        }
    }

    // The next block, where this one is gone.
    fn refresh(&mut self)
        ensures ready { self.new.gone < RATE }
        ensures same { (from : List ℕ) (given : ℕ) → Squeezes RATE from self.old given → Squeezes RATE from self.new given }
    {
        if self.gone == RATE {
            self.state = keccak_f(self.state);
            self.block = first_bytes(&self.state);
            self.gone = 0;
        }
    }

    // Writes the next bytes of the block to the front of `out`, as many as both have: how many they were.
    fn give(&mut self, out: &mut [u8]) -> usize
        requires { self.old.gone < RATE }
        ensures some { 0 < length out.old → 0 < result }
        ensures within { result ≤ length out.old }
        ensures output { (from : List ℕ) (given : ℕ) → Squeezes RATE from self.old given
            → output RATE from (given + result) ≡ output RATE from given ++ take result out.new }
        ensures given { (from : List ℕ) (given : ℕ) → Squeezes RATE from self.old given
            → Squeezes RATE from self.new (given + result) }
    {
        let count = out.len().min(RATE - self.gone);
        let end = self.gone + count;
        out[..count].copy_from_slice(&self.block[self.gone..end]);
        self.gone = end;
        count
    }
}

/// Fills `out` with the first bytes that are squeezed from a state.
pub(crate) fn first_output<const RATE: usize>(state: &State, out: &mut [u8])
    requires { IsRate RATE }
    ensures { out.new ≡ output RATE state.now (length out.old) }
{
    Squeezer::<RATE>::new(state).read(out);
}
