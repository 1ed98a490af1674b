//! Keys at the edge of what is accepted, and hash functions that give zeros or ones.

use crate::zeros::ZeroHash;
use age_core::outside::{CleanSource, MemSink};
use hash_families::{Ones, RepeatingHash};
use hpke::{AesGcm256, HkdfSha256};
use kem_hash::{KemHash, Sha2Hash};
use kem_mail::{MailError, MessageList, open_mail, seal_mail};
use ml_kem::{DecapsulationKey768, EncapsulationKey768, KemError, KeyError, MlKem768};
use rand_chacha::ChaCha20Rng;
use rand_core::SeedableRng;
use std::alloc::{AllocError, Global};
use std::test::Fail;

/// A key of zeros behind these three bytes, which hold its first two numbers.
fn key_of<H: KemHash>(alloc: Global, front: [u8; 3]) -> Result<EncapsulationKey768<H>, KeyError> {
    let mut bytes = [0; 1184];
    bytes[..3].copy_from_slice(&front);
    EncapsulationKey768::new(alloc, &bytes)
}

/// Whether such a key is refused.
fn is_refused<H: KemHash>(alloc: Global, front: [u8; 3]) -> bool {
    matches!(key_of::<H>(alloc, front), Err(KeyError::InvalidKey))
}

/// Whether such a key is read, and written again with these bytes in front.
fn is_kept<H: KemHash>(alloc: Global, front: [u8; 3]) -> Result<bool, Fail> {
    let bytes = key_of::<H>(alloc, front)?.to_bytes()?;
    Ok(&bytes[..3] == front.as_slice())
}

/// The second number is 3329, which no key has, and 3328, the greatest that one has.
#[test]
fn numbers_below_the_modulus_are_accepted(rt: HostRuntime) -> Result<(), Fail> {
    assert!(rt; is_refused::<Sha2Hash>(rt.alloc(), [0x01, 0x0d, 0x00]));
    assert!(rt; is_kept::<Sha2Hash>(rt.alloc(), [0x00, 0x0d, 0x00])?);
    Ok(())
}

/// Whether the zero seed gives no key over a family.
fn gives_no_key<H: KemHash>(alloc: Global) -> bool {
    matches!(
        DecapsulationKey768::<H>::from_seed(alloc, &[0; 64]),
        Err(KemError::XofExhausted)
    )
}

/// Whether nothing is encapsulated to the key of zeros over a family.
fn encapsulates_nothing<H: KemHash>(alloc: Global) -> Result<bool, Fail> {
    let key = key_of::<H>(alloc, [0; 3])?;
    Ok(matches!(
        key.encapsulate_deterministic(&[0; 32]),
        Err(KemError::XofExhausted)
    ))
}

/// Where all that the XOF gives is ones there are no keys, and nothing is encapsulated.
#[test]
fn an_xof_of_ones_is_exhausted(rt: HostRuntime) -> Result<(), Fail> {
    assert!(rt; gives_no_key::<RepeatingHash<Ones>>(rt.alloc()));
    assert!(rt; encapsulates_nothing::<RepeatingHash<Ones>>(rt.alloc())?);
    Ok(())
}

/// Three messages.
const MESSAGES: [&[u8]; 3] = [b"", b"\x00", b"hello"];

/// A list of them.
fn messages(alloc: Global) -> Result<MessageList, AllocError> {
    let mut items = Vec::new(alloc);
    for message in MESSAGES {
        items.push(Vec::from_slice(alloc, message)?)?;
    }
    Ok(MessageList::from_vecs(items))
}

/// The mail of three messages to the key of the zero seed, over a family.
fn sealed<H: KemHash>(alloc: Global) -> Result<Vec<u8>, Fail> {
    let key = DecapsulationKey768::<H>::from_seed(alloc, &[0; 64])?;
    let list = messages(alloc)?;
    let mut rng = ChaCha20Rng::from_seed([0; 32]);
    let mut out = MemSink::new(alloc, Vec::new(alloc));
    seal_mail::<MlKem768, H, HkdfSha256, AesGcm256, ChaCha20Rng, MemSink>(
        alloc,
        key.encapsulation_key(),
        b"",
        &list,
        &mut rng,
        &mut out,
    )?;
    Ok(Vec::from_slice(alloc, out.bytes())?)
}

/// What a mail to that key opens to, over a family.
fn opened<H: KemHash>(alloc: Global, mail: Vec<u8>) -> Result<MessageList, MailError> {
    let mut src = CleanSource::new(mail);
    open_mail::<MlKem768, H, HkdfSha256, AesGcm256, CleanSource>(
        alloc, &[0; 64], b"", &mut src, 65536,
    )
}

/// Whether a list is the three messages.
fn are_messages(list: &MessageList) -> bool {
    if list.len() != 3 {
        return false;
    }
    for (i, message) in MESSAGES.into_iter().enumerate() {
        if list.get(i) != Some(message) {
            return false;
        }
    }
    true
}

/// Whether a mail that was sealed over a family opens over it to what was sealed.
fn opens_what_it_sealed<H: KemHash>(alloc: Global) -> Result<bool, Fail> {
    let mail = sealed::<H>(alloc)?;
    Ok(are_messages(&opened::<H>(alloc, mail)?))
}

#[test]
fn a_family_of_zeros_opens_what_it_sealed(rt: HostRuntime) -> Result<(), Fail> {
    assert!(rt; opens_what_it_sealed::<ZeroHash>(rt.alloc())?);
    Ok(())
}
