//! Printed texts, and each public call once. Expected bytes are of an independent model, in hex.

ghost use Rattle.std.specs.Prelude.{◌<◌, ◌≤◌, ◌^◌, replicate};
ghost use Rattle.rand_core.specs.Steps.{stream_of};

mod contexts;
mod single_shots;

use hpke::laws::{registered_identifiers, same_context, worked_nonces};
use hpke::{
    Aead, AeadTag, AesGcm256, Deserializable, ExportOnlyAead, HkdfSha256, HkdfSha384, HkdfSha512,
    HpkeError, Kdf, Kem, LabeledExpand, MaskKem, MaskKey, SecretSize, Serializable, SharedSecret,
    extract_and_expand, labeled_extract,
};
use rand_core::Rng;
use std::alloc::Global;
use std::test::Fail;

/// A generator that draws one byte again and again.
#[derive(Drop)]
pub struct ConstantDraw {
    byte: u8,
}

impl ConstantDraw {
    pub fn new(byte: u8) -> ConstantDraw {
        ConstantDraw { byte }
    }
}

impl Rng for ConstantDraw {
    ghost stream = { λ draw. stream_of (record {
      next_u32 = λ s. (s, s);
      next_u64 = λ s. (s, s);
      fill_bytes = λ n s. (replicate n s, s);
    }) draw.byte };

    fn next_u32(&mut self) -> u32 {
        u32::from(self.byte)
    }

    fn next_u64(&mut self) -> u64 {
        u64::from(self.byte)
    }

    fn fill_bytes(&mut self, dst: &mut [u8]) {
        dst.fill(self.byte);
    }
}

// The key of 32 bytes that these are.
fn key(alloc: Global, bytes: &[u8]) -> Result<MaskKey, HpkeError> {
    MaskKey::from_bytes(alloc, bytes)
}

// Errors and their texts.
fn error_texts() -> &'static [(HpkeError, &'static str)] {
    &[
        (HpkeError::NoMemory, "No memory"),
        (HpkeError::MessageLimitReached, "Message limit reached"),
        (HpkeError::OpenError, "Failed to open ciphertext"),
        (HpkeError::SealError, "Failed to seal plaintext"),
        (
            HpkeError::KdfOutputTooLong,
            "Too many bytes requested from KDF",
        ),
        (HpkeError::ValidationError, "Input value is invalid"),
        (HpkeError::EncapError, "Encapsulation failed"),
        (HpkeError::DecapError, "Decapsulation failed"),
        (
            HpkeError::IncorrectInputLength(32, 31),
            "Incorrect input length. Expected 32 bytes. Got 31.",
        ),
    ]
}

// Whether an error has this text.
fn is_text(alloc: Global, error: HpkeError, text: &str) -> Result<bool, Fail> {
    Ok(format!(in alloc; "{error}")?.as_str() == text)
}

#[test]
fn texts_of_errors(rt: HostRuntime) -> Result<(), Fail> {
    for &(error, text) in error_texts() {
        assert!(rt; is_text(rt.alloc(), error, text)?, "{text}");
    }
    Ok(())
}

// What a key refuses this many bytes with.
fn key_refusal(alloc: Global, len: usize) -> Option<HpkeError>
    requires { len ≤ 33 }
{
    key(alloc, &[5; 33][..len]).err()
}

// The digits of a value's bytes.
fn digits<T: Serializable>(alloc: Global, value: &T) -> Result<String, Fail> {
    Ok(hex::encode(alloc, value.to_bytes(alloc)?.as_slice())?)
}

#[test]
fn keys_in_bytes(rt: HostRuntime) -> Result<(), Fail> {
    let value = key(rt.alloc(), &[0x5A; 32])?;
    let want = "5a5a5a5a5a5a5a5a5a5a5a5a5a5a5a5a5a5a5a5a5a5a5a5a5a5a5a5a5a5a5a5a";
    assert!(rt; digits(rt.alloc(), &value)?.as_str() == want && MaskKey::size() == 32);
    for len in [0, 31, 33] {
        let want = Some(HpkeError::IncorrectInputLength(32, len));
        assert!(rt; key_refusal(rt.alloc(), len) == want);
    }
    Ok(())
}

// A secret and the encapsulated key for a key, with or without a sender's pair, which is that key twice.
fn encapsulated(
    alloc: Global,
    pk: &MaskKey,
    with_sender: bool,
) -> Result<(SharedSecret<MaskKem>, MaskKey), HpkeError> {
    let sender = if with_sender { Some(pk) } else { None };
    MaskKem::encap(alloc, pk, sender, sender, &mut ConstantDraw::new(7))
}

// The secret that a key finds in an encapsulated one, with or without that key as a sender's.
fn decapsulated(
    alloc: Global,
    sk: &MaskKey,
    encapped_key: &MaskKey,
    with_sender: bool,
) -> Result<SharedSecret<MaskKem>, HpkeError> {
    let sender = if with_sender { Some(sk) } else { None };
    MaskKem::decap(alloc, sk, sender, encapped_key)
}

// Whether both sides of a key have this secret.
fn is_secret(alloc: Global, sk: &MaskKey, secret: &[u8]) -> Result<bool, Fail> {
    let pk = MaskKem::sk_to_pk(alloc, sk)?;
    let (sent, encapped_key) = encapsulated(alloc, &pk, false)?;
    let found = decapsulated(alloc, sk, &encapped_key, false)?;
    Ok(sent.as_slice() == secret && found.as_slice() == secret)
}

// The XOR of 35 and 07 is 32.
#[test]
fn secrets_of_both_sides(rt: HostRuntime) -> Result<(), Fail> {
    let sk = key(rt.alloc(), &[0x35; 32])?;
    assert!(rt; is_secret(rt.alloc(), &sk, &[0x32; 32])? && MaskKem::secret_size() == 32);
    Ok(())
}

#[test]
fn senders_of_the_test_kem_are_refused(rt: HostRuntime) -> Result<(), Fail> {
    same_context::<MaskKem>();
    let pk = key(rt.alloc(), &[0x35; 32])?;
    let sent = encapsulated(rt.alloc(), &pk, true).err();
    assert!(rt; sent == Some(HpkeError::EncapError));
    let found = decapsulated(rt.alloc(), &pk, &pk, true).err();
    assert!(rt; found == Some(HpkeError::DecapError));
    Ok(())
}

// Whether both keys of a pair have these digits.
fn is_pair<S: Serializable, T: Serializable>(
    alloc: Global,
    sk: &S,
    pk: &T,
    want: &str,
) -> Result<bool, Fail> {
    Ok(digits(alloc, sk)?.as_str() == want && digits(alloc, pk)?.as_str() == want)
}

// Whether the pairs that this material derives, and that a draw of it gives, have these digits.
fn gives_pair<K: Kem>(alloc: Global, ikm: &[u8; 32], want: &str) -> Result<bool, Fail> {
    let (sk, pk) = K::derive_keypair(alloc, ikm)?;
    let is_derived = is_pair(alloc, &sk, &pk, want)?;
    let (sk, pk) = K::gen_keypair(alloc, &mut ConstantDraw::new(ikm[0]))?;
    Ok(is_derived && is_pair(alloc, &sk, &pk, want)?)
}

#[test]
fn derived_keys(rt: HostRuntime) -> Result<(), Fail> {
    let want = "a7bef269e8ea778aa5192d685af069a54c92c023565526c9c96ea24410a2feac";
    assert!(rt; gives_pair::<MaskKem>(rt.alloc(), &[7; 32], want)?);
    Ok(())
}

// The digits of 40 bytes of output.
fn expanded<D: Kdf>(alloc: Global) -> Result<String, Fail> {
    let mut out = [0; 40];
    extract_and_expand::<D>(b"ikm", b"KEM\xff\x00", b"info", &mut out)?;
    Ok(hex::encode(alloc, &out)?)
}

// Whether this many bytes of output are refused.
fn is_too_long<D: Kdf>(alloc: Global, len: usize) -> Result<bool, Fail> {
    let mut refused = vec![in alloc; 7; len]?;
    Ok(extract_and_expand::<D>(b"ikm", b"KEM", b"info", refused.as_mut_slice()).is_err())
}

#[test]
fn extract_and_expand_of_a_kem(rt: HostRuntime) -> Result<(), Fail> {
    let want = "bc09bedfcafff7867e36090996fcac6a56f045f80056439127eb0d54979dc82f43eefd8f896826a4";
    assert!(rt; expanded::<HkdfSha256>(rt.alloc())?.as_str() == want);
    assert!(rt; is_too_long::<HkdfSha256>(rt.alloc(), 8161)?);
    Ok(())
}

// What a tag refuses this many bytes with.
fn tag_refusal<A: Aead>(alloc: Global, len: usize) -> Option<HpkeError>
    requires { len ≤ 17 }
{
    AeadTag::<A>::from_bytes(alloc, &[9; 17][..len]).err()
}

// The digits of the copy of a tag that is read.
fn copied_tag<A: Aead>(alloc: Global, bytes: &[u8]) -> Result<String, Fail> {
    let tag = AeadTag::<A>::from_bytes(alloc, bytes)?.clone()?;
    digits(alloc, &tag)
}

// The digits of a tag of zeros.
fn default_tag<A: Aead>(alloc: Global) -> Result<String, Fail> {
    digits(alloc, &AeadTag::<A>::default())
}

#[test]
fn tags_in_bytes(rt: HostRuntime) -> Result<(), Fail> {
    let want = "09090909090909090909090909090909";
    assert!(rt; copied_tag::<AesGcm256>(rt.alloc(), &[9; 16])?.as_str() == want);
    for len in [0, 15, 17] {
        let want = Some(HpkeError::IncorrectInputLength(16, len));
        assert!(rt; tag_refusal::<AesGcm256>(rt.alloc(), len) == want);
    }
    let zeros = default_tag::<AesGcm256>(rt.alloc())?;
    assert!(rt; zeros.as_str() == "00000000000000000000000000000000");
    assert!(rt; AeadTag::<ExportOnlyAead>::size() == 0);
    registered_identifiers();
    worked_nonces();
    Ok(())
}

// Expands to this length, which is 255 digests, and whether one byte more is refused.
fn longest_output<D: Kdf>(alloc: Global, longest: usize) -> Result<bool, Fail>
    requires { longest < 2 ^ 16 }
{
    let (_prk, hkdf) = labeled_extract::<D>(&[], b"KEM", b"label", b"ikm");
    let mut output = vec![in alloc; 7; longest + 1]?;
    let refused = hkdf.labeled_expand(b"KEM", b"label", &[], output.as_mut_slice());
    hkdf.labeled_expand(b"KEM", b"label", &[], &mut output[..longest])?;
    Ok(refused.is_err())
}

#[test]
fn the_longest_labeled_outputs(rt: HostRuntime) -> Result<(), Fail> {
    let alloc = rt.alloc();
    assert!(rt; longest_output::<HkdfSha256>(alloc, 8160)?);
    assert!(rt; longest_output::<HkdfSha384>(alloc, 12240)?);
    assert!(rt; longest_output::<HkdfSha512>(alloc, 16320)?);
    Ok(())
}
