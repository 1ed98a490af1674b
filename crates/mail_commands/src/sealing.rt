//! Sealing a mail, by the names of its suite.

ghost use Rattle.std.specs.Prelude.{◌≡◌, ◌≤◌, ℕ, All, Err, length};
ghost use Rattle.mail_commands.specs.Command.{parameters, kdf_algorithm, aead_algorithm, aead_seal};
ghost use Rattle.mail_commands.specs.private.Sealing.{MailRan, SealRan};

use crate::command::{AeadName, KdfName, SetName, SuiteName};
use crate::seal_input::SealInput;
use age_format::outside::Sink;
use hpke::{AesGcm128, AesGcm256, HkdfSha256, HkdfSha384, HkdfSha512, Kdf};
use kem_hash::KemHash;
use kem_mail::{SealMailError, seal_mail};
use ml_kem::{EncapsulationKey, KeyError, MlKem512, MlKem768, MlKem1024, ParameterSet};
use rand_chacha::ChaCha20Rng;
use rand_core::SeedableRng;
use std::alloc::Global;

/// Why a mail wasn't sealed.
#[derive(Clone, Copy, Debug, PartialEq, Eq)]
pub enum SealFault {
    /// The key is refused.
    InvalidKey,
    /// The mail wasn't sealed, or not written whole.
    Mail(SealMailError),
}

/// How many bytes an encapsulation key of a set has.
pub fn key_size(set: SetName) -> usize
    ensures { result ≡ (parameters set).ek_size }
{
    match set {
        SetName::Set512 => MlKem512::EK_SIZE,
        SetName::Set768 => MlKem768::EK_SIZE,
        SetName::Set1024 => MlKem1024::EK_SIZE,
    }
}

// Seals the mail of an input to its key, by a set, a KDF and an AEAD.
fn seal_aead<P: ParameterSet, H: KemHash, D: Kdf, W: Sink>(
    alloc: Global,
    aead: AeadName,
    key: &EncapsulationKey<P, H>,
    input: &SealInput,
    out: &mut W,
) -> Result<(), SealMailError>
    requires { All (λ message. length message ≤ 32768) input.now.messages }
    ensures { MailRan P.set H.family D.kdf (aead_algorithm aead) (aead_seal aead) key.now input.now.info.items input.now.source input.now.messages
        W.got W.faults W.plan out.old out.new result }
{
    let (info, messages) = (&input.info, &input.messages);
    let mut rng = ChaCha20Rng::from_seed(input.source);
    match aead {
        AeadName::Aes128 => seal_mail::<P, H, D, AesGcm128, ChaCha20Rng, W>(
            alloc, key, info, messages, &mut rng, out,
        ),
        AeadName::Aes256 => seal_mail::<P, H, D, AesGcm256, ChaCha20Rng, W>(
            alloc, key, info, messages, &mut rng, out,
        ),
    }
}

// The same by the names of the KDF and the AEAD.
fn seal_kdf<P: ParameterSet, H: KemHash, W: Sink>(
    alloc: Global,
    kdf: KdfName,
    aead: AeadName,
    key: &EncapsulationKey<P, H>,
    input: &SealInput,
    out: &mut W,
) -> Result<(), SealMailError>
    requires { All (λ message. length message ≤ 32768) input.now.messages }
    ensures { MailRan P.set H.family (kdf_algorithm kdf) (aead_algorithm aead) (aead_seal aead) key.now input.now.info.items input.now.source input.now.messages
        W.got W.faults W.plan out.old out.new result }
{
    match kdf {
        KdfName::Sha256 => seal_aead::<P, H, HkdfSha256, W>(alloc, aead, key, input, out),
        KdfName::Sha384 => seal_aead::<P, H, HkdfSha384, W>(alloc, aead, key, input, out),
        KdfName::Sha512 => seal_aead::<P, H, HkdfSha512, W>(alloc, aead, key, input, out),
    }
}

// Seals the mail of an input, by a set and the names of the KDF and the AEAD.
fn seal_set<P: ParameterSet, H: KemHash, W: Sink>(
    alloc: Global,
    kdf: KdfName,
    aead: AeadName,
    input: &SealInput,
    out: &mut W,
) -> Result<(), SealFault>
    requires { All (λ message. length message ≤ 32768) input.now.messages }
    ensures { SealRan P.set H.family (kdf_algorithm kdf) (aead_algorithm aead) (aead_seal aead) input.now.key.items input.now.info.items input.now.source input.now.messages
        W.got W.faults W.plan out.old out.new result }
{
    match EncapsulationKey::<P, H>::new(alloc, &input.key) {
        Ok(key) => match seal_kdf::<P, H, W>(alloc, kdf, aead, &key, input, out) {
            Ok(()) => Ok(()),
            Err(error) => Err(SealFault::Mail(error)),
        },
        Err(KeyError::InvalidKey) => Err(SealFault::InvalidKey),
        Err(KeyError::NoMemory) => Err(SealFault::Mail(SealMailError::NoMemory)),
    }
}

/// Seals the mail of an input, by the name of a suite.
pub fn seal_suite<H: KemHash, W: Sink>(
    alloc: Global,
    suite: SuiteName,
    input: &SealInput,
    out: &mut W,
) -> Result<(), SealFault>
    requires { All (λ message. length message ≤ 32768) input.now.messages }
    ensures { SealRan (parameters suite.set) H.family (kdf_algorithm suite.kdf) (aead_algorithm suite.aead) (aead_seal suite.aead)
        input.now.key.items input.now.info.items input.now.source input.now.messages W.got W.faults W.plan out.old out.new result }
{
    let (kdf, aead) = (suite.kdf, suite.aead);
    match suite.set {
        SetName::Set512 => seal_set::<MlKem512, H, W>(alloc, kdf, aead, input, out),
        SetName::Set768 => seal_set::<MlKem768, H, W>(alloc, kdf, aead, input, out),
        SetName::Set1024 => seal_set::<MlKem1024, H, W>(alloc, kdf, aead, input, out),
    }
}
