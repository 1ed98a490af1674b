//! SHAKE128 and SHAKE256 (FIPS 202, section 6.2): functions with an output of any length.

ghost use Rattle.std.specs.Prelude.{◌≡◌, ⊤, ℕ, List, [], ◌++◌, ◌+◌, length};
ghost use Rattle.sha3.specs.Hashers.{Gave128, Gave256, HoldsShake128, HoldsShake256};
ghost use Rattle.sha3.specs.Sha3.{shake128, shake256};

use crate::sponge::Sponge;
use crate::squeeze::Squeezer;
use std::convert::AsSlice;

/// The bits 1111 behind a message of SHAKE, and the first bit of the padding.
const XOF_DOMAIN: u8 = 0x1F;

/// How many bytes a block of SHAKE128 has.
const RATE_128: usize = 168;

/// How many bytes a block of SHAKE256 has.
const RATE_256: usize = 136;

/// An output that is given piece by piece, and goes on where it stopped.
pub trait XofReader: Drop {
    // Of the output of this message, so many bytes were given.
    ghost gave: { Self → List ℕ → ℕ → Type 0 };

    // The output of a message, of so many bytes.
    ghost output_of: { List ℕ → ℕ → List ℕ };

    /// Fills `buffer` with the next bytes of the output.
    fn read(&mut self, buffer: &mut [u8])
        ensures output { (m : List ℕ) (given : ℕ) → gave self.old m given
            → output_of m (given + length buffer.old) ≡ output_of m given ++ buffer.new }
        ensures gave { (m : List ℕ) (given : ℕ) → gave self.old m given → gave self.new m (given + length buffer.old) };
}

/// A function with an output of any length: it takes a message piece by piece.
pub trait ExtendableOutput: Drop {
    /// The output.
    type Reader: XofReader;

    // This message was taken in.
    ghost holds: { Self → List ℕ → Type 0 };

    /// The function of the empty message.
    fn new() -> Self
        ensures { holds result [] };

    /// Adds `data` to the message.
    fn update<T: AsSlice<u8> + Drop>(&mut self, data: T)
        ensures { (m : List ℕ) → holds self.old m → holds self.new (m ++ T.items «data») };

    /// The output of the message, of which nothing was given.
    fn finalize_xof(self) -> Self::Reader
        ensures { (m : List ℕ) → holds self m → Self.Reader.gave result m 0 };
}

/// The function SHAKE128. No call takes memory.
#[derive(Drop)]
pub struct Shake128 {
    sponge: Sponge<RATE_128>,
}

/// The output of SHAKE128.
#[derive(Drop)]
pub struct Shake128Reader {
    squeezer: Squeezer<RATE_128>,
}

impl ExtendableOutput for Shake128 {
    type Reader = Shake128Reader;

    ghost holds = { λ s m. HoldsShake128 s m };

    fn new() -> Shake128 {
        Shake128 {
            sponge: Sponge::new(),
        }
    }

    fn update<T: AsSlice<u8> + Drop>(&mut self, data: T) {
        self.sponge.update(data.as_slice());
    }

    fn finalize_xof(self) -> Shake128Reader {
        let state = self.sponge.finish(XOF_DOMAIN);
        Shake128Reader {
            squeezer: Squeezer::new(&state),
        }
    }
}

impl XofReader for Shake128Reader {
    ghost gave = { λ s m given. Gave128 s m given };

    ghost output_of = { shake128 };

    fn read(&mut self, buffer: &mut [u8]) {
        self.squeezer.read(buffer);
    }
}

impl Default for Shake128 {
    ghost is_default = { λ s. HoldsShake128 s [] };

    fn default() -> Shake128 {
        Shake128::new()
    }
}

/// The function SHAKE256. No call takes memory.
#[derive(Drop)]
pub struct Shake256 {
    sponge: Sponge<RATE_256>,
}

/// The output of SHAKE256.
#[derive(Drop)]
pub struct Shake256Reader {
    squeezer: Squeezer<RATE_256>,
}

impl ExtendableOutput for Shake256 {
    type Reader = Shake256Reader;

    ghost holds = { λ s m. HoldsShake256 s m };

    fn new() -> Shake256 {
        Shake256 {
            sponge: Sponge::new(),
        }
    }

    fn update<T: AsSlice<u8> + Drop>(&mut self, data: T) {
        self.sponge.update(data.as_slice());
    }

    fn finalize_xof(self) -> Shake256Reader {
        let state = self.sponge.finish(XOF_DOMAIN);
        Shake256Reader {
            squeezer: Squeezer::new(&state),
        }
    }
}

impl XofReader for Shake256Reader {
    ghost gave = { λ s m given. Gave256 s m given };

    ghost output_of = { shake256 };

    fn read(&mut self, buffer: &mut [u8]) {
        self.squeezer.read(buffer);
    }
}

impl Default for Shake256 {
    ghost is_default = { λ s. HoldsShake256 s [] };

    fn default() -> Shake256 {
        Shake256::new()
    }
}
