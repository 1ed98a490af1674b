//! A mail is sealed and opened.

use age_format::outside::{CleanSource, MemSink};
use hpke::{AesGcm128, HkdfSha256};
use kem_hash::Sha2Hash;
use kem_mail::{MessageList, open_mail, seal_mail};
use ml_kem::{DecapsulationKey, EncapsulationKey, MlKem512, Seed};
use rand_chacha::ChaCha20Rng;
use rand_core::SeedableRng;
use std::alloc::{AllocError, Global};
use std::test::Fail;

/// The seed of the key.
const SEED: Seed = [7; 64];

/// A list of two messages.
fn two_messages(alloc: Global) -> Result<MessageList, AllocError> {
    let mut items = Vec::new(alloc);
    items.push(Vec::from_slice(alloc, b"hello")?)?;
    items.push(Vec::from_slice(alloc, b"")?)?;
    Ok(MessageList::from_vecs(items))
}

/// The mail of a list to a key.
fn sealed(
    alloc: Global,
    ek: &EncapsulationKey<MlKem512, Sha2Hash>,
    messages: &MessageList,
) -> Result<Vec<u8>, Fail> {
    let mut rng = ChaCha20Rng::from_seed([0; 32]);
    let mut out = MemSink::new(alloc, Vec::new(alloc));
    seal_mail::<MlKem512, Sha2Hash, HkdfSha256, AesGcm128, ChaCha20Rng, MemSink>(
        alloc, ek, b"info", messages, &mut rng, &mut out,
    )?;
    Ok(Vec::from_slice(alloc, out.bytes())?)
}

/// Whether the message at a place is this one.
fn is_message(messages: &MessageList, i: usize, expected: &[u8]) -> bool {
    match messages.get(i) {
        Some(message) => message == expected,
        None => false,
    }
}

#[test]
fn opens_what_was_sealed(rt: HostRuntime) -> Result<(), Fail> {
    let alloc = rt.alloc();
    let messages = two_messages(alloc)?;
    let key = DecapsulationKey::<MlKem512, Sha2Hash>::from_seed(alloc, &SEED)?;
    let mail = sealed(alloc, key.encapsulation_key(), &messages)?;
    let mut src = CleanSource::new(mail);
    let opened = open_mail::<MlKem512, Sha2Hash, HkdfSha256, AesGcm128, CleanSource>(
        alloc, &SEED, b"info", &mut src, 65536,
    )?;
    assert_eq!(rt; opened.len(), 2);
    assert!(rt; is_message(&opened, 0, b"hello"));
    assert!(rt; is_message(&opened, 1, b""));
    Ok(())
}
