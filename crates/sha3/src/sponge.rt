//! The sponge over Keccak-f[1600] (FIPS 202, section 4): a message is taken in piece by piece.

ghost use Rattle.std.specs.Prelude.{◌≡◌, ℕ, List, [], ◌++◌, ◌+◌, ◌*◌, ◌%◌, ◌<◌, ◌≤◌, length, take};
ghost use Rattle.sha3.specs.Keccak.{keccak_f};
ghost use Rattle.sha3.specs.Pieces.{Absorbs, Held, IsDomain, IsRate};
ghost use Rattle.sha3.specs.Sponge.{absorbed_whole, added, lane_of};

use crate::keccak::{LANES, State, keccak_f};
use std::alloc::AllocError;
use std::marker::Model;

/// The most bytes that a block has: those of SHAKE128.
pub(crate) const MAX_RATE: usize = 168;

/// How many bytes a lane has.
pub(crate) const LANE_LEN: usize = 8;

/// The last bit of a padding, in the last byte of a block.
const LAST_BIT: u8 = 0x80;

/// A message that is taken in piece by piece: its whole blocks are absorbed, and the rest stands in the
/// buffer.
#[derive(Drop)]
pub(crate) struct Sponge<const RATE: usize> {
    state: State,
    buffer: [u8; MAX_RATE],
    len: usize,
}

impl<const RATE: usize> Model for Sponge<RATE> {
    ghost use Rattle.std.specs.Prelude.{◌<◌};
    ghost use Rattle.sha3.specs.Pieces.{Held, IsRate};

    ghost Value = { Held };

    ghost view = { λ s. record { state = s.state; buffer = s.buffer; len = s.len } };

    ghost invariant = { λ s. IsRate RATE × (s.len < RATE) };
}

// Lane `k` of a block.
#[inline(always)]
fn lane_of(block: &[u8], k: usize) -> u64
    requires { 8 * k + 8 ≤ length block.now }
    ensures { result ≡ lane_of block.now k }
{
    let start = LANE_LEN * k;
    let mut bytes = [0; LANE_LEN];
    bytes.copy_from_slice(&block[start..start + LANE_LEN]);
    u64::from_le_bytes(bytes)
}

// Adds a block to the state.
#[inline(always)]
fn add(state: &mut State, block: &[u8])
    requires room { length block.now ≤ 200 }
    requires whole { length block.now % 8 ≡ 0 }
    ensures { state.new ≡ added state.old block.now }
{
    for k in 0..block.len() / LANE_LEN {
        state[k] ^= lane_of(block, k);
    }
}

// Adds a block to the state, and permutes it.
fn absorb(state: &mut State, block: &[u8])
    requires room { length block.now ≤ 200 }
    requires whole { length block.now % 8 ≡ 0 }
    ensures { state.new ≡ keccak_f (added state.old block.now) }
{
    add(state, block);
    *state = keccak_f(*state);
}

impl<const RATE: usize> Sponge<RATE> {
    /// A sponge that has taken in nothing.
    pub fn new() -> Self
        requires { IsRate RATE }
        ensures { Absorbs RATE result [] }
    {
        Sponge {
            state: [0; LANES],
            buffer: [0; MAX_RATE],
            len: 0,
        }
    }

    /// Takes in the next piece of the message.
    pub fn update(&mut self, piece: &[u8])
        ensures { (m : List ℕ) → Absorbs RATE self.old m
            → Absorbs RATE self.new (m ++ piece.now) }
    {
        let mut start = 0;
        while start < piece.len() {
            start += self.fill(&piece[start..]);
        }
    }

    // Takes in as many bytes as the buffer has room for, and absorbs it where it is full: how many they
    // were.
    fn fill(&mut self, piece: &[u8]) -> usize
        ensures some { 0 < length piece.now → 0 < result }
        ensures within { result ≤ length piece.now }
        ensures taken { (m : List ℕ) → Absorbs RATE self.old m
            → Absorbs RATE self.new (m ++ take result piece.now) }
    {
        let count = piece.len().min(RATE - self.len);
        let end = self.len + count;
        self.buffer[self.len..end].copy_from_slice(&piece[..count]);
        if end == RATE {
            absorb(&mut self.state, &self.buffer[..RATE]);
            self.len = 0;
        } else {
            self.len = end;
        }
        count
    }

    /// The state once the message has ended: `domain` is the byte of the bits behind the message and the
    /// first bit of the padding.
    pub fn finish(self, domain: u8) -> State
        ensures { (suffix m : List ℕ) → IsDomain domain suffix → Absorbs RATE self.entry m
            → result ≡ absorbed_whole RATE suffix m }
    {
        let mut block = [0; MAX_RATE];
        block[..self.len].copy_from_slice(&self.buffer[..self.len]);
        block[self.len] = domain;
        block[RATE - 1] ^= LAST_BIT;
        let mut state = self.state;
        absorb(&mut state, &block[..RATE]);
        state
    }
}

impl<const RATE: usize> Clone for Sponge<RATE> {
    ghost use Rattle.std.specs.Prelude.{◌≡◌, ⊤};

    ghost is_clone = { λ x y. y ≡ x };

    ghost is_infallible = { λ _. ⊤ };

    fn clone(&self) -> Result<Sponge<RATE>, AllocError> {
        Ok(Sponge {
            state: self.state,
            buffer: self.buffer,
            len: self.len,
        })
    }
}
