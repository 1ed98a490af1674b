//! HKDF: a key derivation function that stands on HMAC (RFC 5869).

ghost use Rattle.std.specs.Prelude.{◌≡◌, ◌+◌, ◌-◌, ◌*◌, ◌<◌, ◌≤◌, ◌↔◌, ℕ, List, [], ◌∷◌, ◌++◌};
ghost use Rattle.std.specs.Prelude.{length, take, drop, IsErr, OnOk, OnErr};
ghost use Rattle.hkdf_core.specs.Hmac.{hmac, key_block};
ghost use Rattle.hkdf_core.specs.Hkdf.{extract, expand};

use crate::hashing::{DigestBytes, HkdfHash};
use crate::key_block::KeyBlock;
use crate::keyed_hash::Hmac;
use std::marker::Model;
use thiserror::Error;

/// The most digests that one output may have, since a block's number is one byte (RFC 5869, section
/// 2.3).
pub const MAX_OUTPUT_BLOCKS: usize = 255;

/// The output that was asked for is longer than 255 digests.
#[derive(Debug, Drop, Error)]
#[error("the output is longer than 255 digests")]
pub struct InvalidLength;

/// HKDF-Extract of input keying material that comes piece by piece.
#[derive(Drop)]
pub struct HkdfExtract<T> {
    mac: Hmac<T>,
}

impl<T: HkdfHash> HkdfExtract<T> {
    ghost use Rattle.hkdf_core.specs.Fed.{ExtractHolds};

    /// The extraction under a salt of any length, with no input keying material yet. The empty salt
    /// stands for no salt.
    pub fn new(salt: &[u8]) -> HkdfExtract<T>
        ensures { ExtractHolds T.holds T.hash_of T.BLOCK_SIZE result salt.now [] }
    {
        HkdfExtract {
            mac: Hmac::new(salt),
        }
    }

    /// Feeds the next piece of the input keying material.
    pub fn input_ikm(&mut self, piece: &[u8])
        ensures { (salt ikm : List ℕ) → ExtractHolds T.holds T.hash_of T.BLOCK_SIZE self.old salt ikm
            → ExtractHolds T.holds T.hash_of T.BLOCK_SIZE self.new salt (ikm ++ piece.now) }
    {
        self.mac.update(piece);
    }

    /// The pseudorandom key of the pieces joined (RFC 5869, section 2.2), of DIGEST_SIZE bytes, and
    /// the expansion from it.
    pub fn finalize(self) -> (DigestBytes, Hkdf<T>)
        ensures prk { (salt ikm : List ℕ) → ExtractHolds T.holds T.hash_of T.BLOCK_SIZE self salt ikm
            → result.0 ≡ extract T.hash_of T.BLOCK_SIZE salt ikm }
        ensures prk_size { length result.0 ≡ T.DIGEST_SIZE }
        ensures hkdf { (salt ikm : List ℕ) → ExtractHolds T.holds T.hash_of T.BLOCK_SIZE self salt ikm
            → result.1 ≡ key_block T.hash_of T.BLOCK_SIZE (extract T.hash_of T.BLOCK_SIZE salt ikm) }
    {
        let prk = self.mac.finalize();
        let hkdf = Hkdf {
            prk: KeyBlock::new(prk.as_slice()),
        };
        (prk, hkdf)
    }
}

/// The expansion from a pseudorandom key. Contracts see the key as one block of HMAC, which is all
/// that HMAC reads of it.
#[derive(Drop)]
pub struct Hkdf<T: HkdfHash> {
    prk: KeyBlock<T>,
}

impl<T: HkdfHash> Model for Hkdf<T> {
    ghost Value = { List ℕ };

    ghost view = { λ hkdf. hkdf.prk };
}

impl<T: HkdfHash> Hkdf<T> {
    /// The expansion from the pseudorandom key that HKDF-Extract makes of the salt and the input
    /// keying material. The empty salt stands for no salt.
    pub fn new(salt: &[u8], ikm: &[u8]) -> Hkdf<T>
        ensures { result
            ≡ key_block T.hash_of T.BLOCK_SIZE (extract T.hash_of T.BLOCK_SIZE salt.now ikm.now) }
    {
        let mut extraction = HkdfExtract::new(salt);
        extraction.input_ikm(ikm);
        let (_prk, hkdf) = extraction.finalize();
        hkdf
    }

    /// The expansion from this pseudorandom key, which has at least DIGEST_SIZE bytes (RFC 5869,
    /// section 2.3).
    pub fn from_prk(prk: &[u8]) -> Hkdf<T>
        requires { T.DIGEST_SIZE ≤ length prk.now }
        ensures { result ≡ key_block T.hash_of T.BLOCK_SIZE prk.now }
    {
        Hkdf {
            prk: KeyBlock::new(prk),
        }
    }

    /// HKDF-Expand (RFC 5869, section 2.3): fills `out` with the output under this info string. An
    /// `out` that is longer than 255 digests is refused, and stays as it was.
    pub fn expand(&self, info: &[u8], out: &mut [u8]) -> Result<(), InvalidLength>
        ensures invalid_length { IsErr result ↔ (MAX_OUTPUT_BLOCKS * T.DIGEST_SIZE < length out.old) }
        ensures output { (prk : List ℕ) → self.now ≡ key_block T.hash_of T.BLOCK_SIZE prk
            → OnOk result (out.new ≡ expand T.hash_of T.BLOCK_SIZE prk info.now (length out.old)) }
        ensures refused { OnErr result (out.new ≡ out.old) }
    {
        self.expand_five(info, &[], &[], &[], &[], out)
    }

    /// HKDF-Expand as [`Hkdf::expand`] does it, under the five pieces joined as info string.
    pub fn expand_five(
        &self,
        a: &[u8],
        b: &[u8],
        c: &[u8],
        d: &[u8],
        e: &[u8],
        out: &mut [u8],
    ) -> Result<(), InvalidLength>
        ensures invalid_length { IsErr result ↔ (MAX_OUTPUT_BLOCKS * T.DIGEST_SIZE < length out.old) }
        ensures output { (prk : List ℕ) → self.now ≡ key_block T.hash_of T.BLOCK_SIZE prk
            → let info = a.now ++ b.now ++ c.now ++ d.now ++ e.now in
            OnOk result (out.new ≡ expand T.hash_of T.BLOCK_SIZE prk info (length out.old)) }
        ensures refused { OnErr result (out.new ≡ out.old) }
    {
        if out.len() > MAX_OUTPUT_BLOCKS * T::DIGEST_SIZE {
            return Err(InvalidLength);
        }
        self.fill(&JoinedInfo { a, b, c, d, e }, out);
        Ok(())
    }

    // Fills the output, which has at most 255 digests, block by block.
    fn fill(&self, info: &JoinedInfo<'_>, out: &mut [u8])
        requires { length out.old ≤ MAX_OUTPUT_BLOCKS * T.DIGEST_SIZE }
        ensures { (prk : List ℕ) → self.now ≡ key_block T.hash_of T.BLOCK_SIZE prk
            → out.new ≡ expand T.hash_of T.BLOCK_SIZE prk info.now (length out.old) }
    {
        let count = out.len().div_ceil(T::DIGEST_SIZE);
        let mut previous = DigestBytes::from_slice(&[]);
        for index in 0..count {
            previous = self.next_block(&previous, info, (index + 1) as u8);
            write_at(out, index * T::DIGEST_SIZE, previous.as_slice());
        }
    }

    // T(number), from T(number - 1).
    fn next_block(&self, previous: &DigestBytes, info: &JoinedInfo<'_>, number: u8) -> DigestBytes
        ensures { (prk : List ℕ) → self.now ≡ key_block T.hash_of T.BLOCK_SIZE prk
            → result ≡ hmac T.hash_of T.BLOCK_SIZE prk (previous.now ++ info.now ++ number ∷ []) }
    {
        let mut mac = Hmac::with_block(&self.prk);
        mac.update(previous.as_slice());
        info.feed(&mut mac);
        mac.update(&[number]);
        mac.finalize()
    }
}

// An info string in five pieces, which contracts see as the pieces joined.
#[derive(Drop)]
struct JoinedInfo<'a> {
    a: &'a [u8],
    b: &'a [u8],
    c: &'a [u8],
    d: &'a [u8],
    e: &'a [u8],
}

impl<'a> Model for JoinedInfo<'a> {
    ghost Value = { List ℕ };

    ghost view = { λ info. info.a.now ++ info.b.now ++ info.c.now ++ info.d.now ++ info.e.now };
}

impl JoinedInfo<'_> {
    ghost use Rattle.hkdf_core.specs.Fed.{HmacHolds};

    // Feeds the pieces in turn.
    fn feed<T: HkdfHash>(&self, mac: &mut Hmac<T>)
        ensures { (key text : List ℕ) → HmacHolds T.holds T.hash_of T.BLOCK_SIZE mac.old key text
            → HmacHolds T.holds T.hash_of T.BLOCK_SIZE mac.new key (text ++ self.now) }
    {
        mac.update(self.a);
        mac.update(self.b);
        mac.update(self.c);
        mac.update(self.d);
        mac.update(self.e);
    }
}

// Writes a block into the output from `at` on, as far as it fits.
fn write_at(out: &mut [u8], at: usize, block: &[u8])
    requires { at ≤ length out.old }
    ensures { out.new ≡ take at out.old ++ take (length out.old - at) block.now
        ++ drop (at + length block.now) out.old }
{
    let count = block.len().min(out.len() - at);
    out[at..at + count].copy_from_slice(&block[..count]);
}
