//! Key derivation functions (RFC 9180, sections 4 and 7.2).

ghost use Rattle.std.specs.Prelude.{◌≡◌, ◌*◌, ◌<◌, ◌≤◌, ◌↔◌, ℕ, List, [], length, IsErr, OnOk, OnErr};
ghost use Rattle.hkdf_core.specs.Hmac.{key_block};
ghost use Rattle.hpke.specs.Labels.{kem_suite, hpke_suite, labeled_extract, labeled_expand, extract_and_expand, derived_key};
ghost use Rattle.hpke.specs.Schedule.{KdfAlgorithm};

use crate::short::{MAX_SHORT, ShortBytes};
use hkdf_core::{
    DigestBytes, HashSha256, HashSha384, HashSha512, Hkdf, HkdfExtract, HkdfHash, InvalidLength,
    MAX_OUTPUT_BLOCKS,
};

/// What stands before each label (RFC 9180, section 4).
const VERSION_LABEL: &[u8] = b"HPKE-v1";

/// A key derivation function: HKDF over a hash function.
pub trait Kdf {
    /// The hash function.
    type HashImpl: HkdfHash;

    /// The algorithm's identifier.
    const KDF_ID: u16;

    ghost KDF_ID: { ℕ };

    /// What the function brings to a suite.
    ghost kdf: { KdfAlgorithm };

    // It is made of the hash function and the identifier.
    ghost kdf_is: { kdf ≡ record {
      hash = Self.HashImpl.hash_of;
      block_size = Self.HashImpl.BLOCK_SIZE;
      digest_size = Self.HashImpl.DIGEST_SIZE;
      kdf_id = KDF_ID;
    } };
}

/// HKDF-SHA256.
pub struct HkdfSha256;

impl Kdf for HkdfSha256 {
    type HashImpl = HashSha256;

    const KDF_ID: u16 = 1;

    ghost KDF_ID = { 1 };

    ghost use Rattle.std.proofs.Common.{refl};
    ghost use Rattle.sha2.specs.Sha256.{sha256};

    ghost kdf = { record { hash = sha256; block_size = 64; digest_size = 32; kdf_id = 1 } };

    ghost kdf_is = { refl };
}

/// HKDF-SHA384.
pub struct HkdfSha384;

impl Kdf for HkdfSha384 {
    type HashImpl = HashSha384;

    const KDF_ID: u16 = 2;

    ghost KDF_ID = { 2 };

    ghost use Rattle.std.proofs.Common.{refl};
    ghost use Rattle.sha2.specs.Sha512.{sha384};

    ghost kdf = { record { hash = sha384; block_size = 128; digest_size = 48; kdf_id = 2 } };

    ghost kdf_is = { refl };
}

/// HKDF-SHA512.
pub struct HkdfSha512;

impl Kdf for HkdfSha512 {
    type HashImpl = HashSha512;

    const KDF_ID: u16 = 3;

    ghost KDF_ID = { 3 };

    ghost use Rattle.std.proofs.Common.{refl};
    ghost use Rattle.sha2.specs.Sha512.{sha512};

    ghost kdf = { record { hash = sha512; block_size = 128; digest_size = 64; kdf_id = 3 } };

    ghost kdf_is = { refl };
}

/// LabeledExtract (RFC 9180, section 4): the pseudorandom key, of DIGEST_SIZE bytes, and the
/// expansion from it. It takes no memory.
pub fn labeled_extract<D: Kdf>(
    salt: &[u8],
    suite_id: &[u8],
    label: &[u8],
    ikm: &[u8],
) -> (DigestBytes, Hkdf<D::HashImpl>)
    ensures prk { result.0
        ≡ labeled_extract D.HashImpl.hash_of D.HashImpl.BLOCK_SIZE salt.now suite_id.now label.now ikm.now }
    ensures prk_size { length result.0 ≡ D.HashImpl.DIGEST_SIZE }
    ensures hkdf { result.1 ≡ key_block D.HashImpl.hash_of D.HashImpl.BLOCK_SIZE
        (labeled_extract D.HashImpl.hash_of D.HashImpl.BLOCK_SIZE salt.now suite_id.now label.now ikm.now) }
    ensures expands { ⟦<Hkdf<D::HashImpl> as LabeledExpand>⟧.expands_from result.1 result.0 }
{
    let mut extraction = HkdfExtract::<D::HashImpl>::new(salt);
    extraction.input_ikm(VERSION_LABEL);
    extraction.input_ikm(suite_id);
    extraction.input_ikm(label);
    extraction.input_ikm(ikm);
    extraction.finalize()
}

/// Expansion under a label.
pub trait LabeledExpand {
    // The most bytes that one call gives.
    ghost max_output: { ℕ };

    // Whether this value expands from this pseudorandom key.
    ghost expands_from: { Self → List ℕ → Type 0 };

    // The output from a pseudorandom key, for a suite, a label, an info string and a length.
    ghost labeled_expand_of: { List ℕ → List ℕ → List ℕ → List ℕ → ℕ → List ℕ };

    /// LabeledExpand (RFC 9180, section 4): fills `out` with the output under this label and info
    /// string. An `out` that is longer than 255 digests is refused, and stays as it was.
    fn labeled_expand(
        &self,
        suite_id: &[u8],
        label: &[u8],
        info: &[u8],
        out: &mut [u8],
    ) -> Result<(), InvalidLength>
        ensures invalid_length { IsErr result ↔ (max_output < length out.old) }
        ensures output { (prk : List ℕ) → expands_from self.now prk
            → OnOk result (out.new ≡ labeled_expand_of prk suite_id.now label.now info.now (length out.old)) }
        ensures refused { OnErr result (out.new ≡ out.old) };
}

impl<T: HkdfHash> LabeledExpand for Hkdf<T> {
    ghost use Rattle.hkdf_core.specs.declared.derivation.TheConstants.{MAX_OUTPUT_BLOCKS};

    ghost max_output = { MAX_OUTPUT_BLOCKS * T.DIGEST_SIZE };

    ghost expands_from = { λ hkdf prk. hkdf ≡ key_block T.hash_of T.BLOCK_SIZE prk };

    ghost labeled_expand_of = { labeled_expand T.hash_of T.BLOCK_SIZE };

    fn labeled_expand(
        &self,
        suite_id: &[u8],
        label: &[u8],
        info: &[u8],
        out: &mut [u8],
    ) -> Result<(), InvalidLength> {
        if out.len() > MAX_OUTPUT_BLOCKS * T::DIGEST_SIZE {
            return Err(InvalidLength);
        }
        let len = (out.len() as u16).to_be_bytes();
        self.expand_five(&len, VERSION_LABEL, suite_id, label, info, out)
    }
}

/// ExtractAndExpand (RFC 9180, section 4.1), as a KEM makes its secret of what both sides share.
/// An `out` that is longer than 255 digests is refused, and stays as it was.
pub fn extract_and_expand<D: Kdf>(
    ikm: &[u8],
    suite_id: &[u8],
    info: &[u8],
    out: &mut [u8],
) -> Result<(), InvalidLength>
    ensures invalid_length { IsErr result ↔ (MAX_OUTPUT_BLOCKS * D.HashImpl.DIGEST_SIZE < length out.old) }
    ensures output { OnOk result (out.new ≡ extract_and_expand D.HashImpl.hash_of D.HashImpl.BLOCK_SIZE
        ikm.now suite_id.now info.now (length out.old)) }
    ensures refused { OnErr result (out.new ≡ out.old) }
{
    let (_prk, hkdf) = labeled_extract::<D>(&[], suite_id, b"eae_prk", ikm);
    hkdf.labeled_expand(suite_id, b"shared_secret", info, out)
}

/// LabeledExpand to at most [`MAX_SHORT`] bytes, which each key derivation function gives.
pub fn expand_short<T: HkdfHash>(
    hkdf: &Hkdf<T>,
    suite_id: &[u8],
    label: &[u8],
    info: &[u8],
    len: usize,
) -> ShortBytes
    requires { len ≤ MAX_SHORT }
    ensures output { (prk : List ℕ) → hkdf.now ≡ key_block T.hash_of T.BLOCK_SIZE prk
        → result ≡ labeled_expand T.hash_of T.BLOCK_SIZE prk suite_id.now label.now info.now len }
    ensures size { length result ≡ len }
{
    let mut bytes = [0; MAX_SHORT];
    fill_short(hkdf, suite_id, label, info, &mut bytes[..len]);
    ShortBytes::from_slice(&bytes[..len])
}

/// The private key of `len` bytes, at most [`MAX_SHORT`], that input keying material gives under a
/// KEM's identifier, by HKDF-SHA256 (RFC 9180, section 7.1.3).
pub fn derive_short(kem_id: u16, ikm: &[u8], len: usize) -> ShortBytes
    requires { len ≤ MAX_SHORT }
    ensures value { result ≡ derived_key kem_id ikm.now len }
    ensures size { length result ≡ len }
{
    let suite_id = kem_suite_id(kem_id);
    let (_prk, hkdf) = labeled_extract::<HkdfSha256>(&[], &suite_id, b"dkp_prk", ikm);
    expand_short(&hkdf, &suite_id, b"sk", &[], len)
}

// LabeledExpand that fills at most MAX_SHORT bytes.
fn fill_short<T: HkdfHash>(
    hkdf: &Hkdf<T>,
    suite_id: &[u8],
    label: &[u8],
    info: &[u8],
    out: &mut [u8],
)
    requires { length out.old ≤ MAX_SHORT }
    ensures { (prk : List ℕ) → hkdf.now ≡ key_block T.hash_of T.BLOCK_SIZE prk
        → out.new ≡ labeled_expand T.hash_of T.BLOCK_SIZE prk suite_id.now label.now info.now (length out.old) }
{
    let _filled = hkdf.labeled_expand(suite_id, label, info, out);
}

/// The suite of a KEM's own derivations (RFC 9180, section 4.1).
pub fn kem_suite_id(kem_id: u16) -> [u8; 5]
    ensures { result ≡ kem_suite kem_id }
{
    let kem = kem_id.to_be_bytes();
    [b'K', b'E', b'M', kem[0], kem[1]]
}

/// The suite of a context (RFC 9180, section 5.1).
pub fn hpke_suite_id(kem_id: u16, kdf_id: u16, aead_id: u16) -> [u8; 10]
    ensures { result ≡ hpke_suite kem_id kdf_id aead_id }
{
    let kem = kem_id.to_be_bytes();
    let kdf = kdf_id.to_be_bytes();
    let aead = aead_id.to_be_bytes();
    [
        b'H', b'P', b'K', b'E', kem[0], kem[1], kdf[0], kdf[1], aead[0], aead[1],
    ]
}
