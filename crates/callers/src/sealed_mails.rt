//! A caller of `kem_mail`'s sealing.

ghost use Rattle.std.specs.Prelude.{[], OnOk};
ghost use Rattle.rand_core.specs.Stream.{fill_bytes};
ghost use Rattle.kem_hash.specs.Sha2.{sha2_family};
ghost use Rattle.ml_kem.specs.Parameters.{ml_kem_768};
ghost use Rattle.age_format.specs.Outside.{Wrote};
ghost use Rattle.kem_mail.specs.Sealing.{Sealer, lattice_sealer};
ghost use Rattle.kem_mail.specs.SenderText.{IsSenderText};
ghost use Rattle.kem_mail.specs.Sent.{mail_text};
ghost use Rattle.mail_commands.specs.Command.{aead_algorithm, aead_seal, kdf_algorithm};
ghost use Rattle.mail_commands.specs.declared.command.AeadName.TheVariants.{Aes256};
ghost use Rattle.mail_commands.specs.declared.command.KdfName.TheVariants.{Sha256};

use age_core::outside::Sink;
use hpke::{AesGcm256, HkdfSha256};
use kem_hash::Sha2Hash;
use kem_mail::{MessageList, SealMailError, seal_mail};
use ml_kem::{EncapsulationKey, MlKem768};
use rand_core::Rng;
use std::alloc::Global;

/// Sends messages to the key of a mailbox, without an info: exactly the text of the mail is written, which
/// is a sender's text for the 32 bytes that are drawn first.
pub fn send_to_mailbox<R: Rng, W: Sink>(
    alloc: Global,
    mailbox: &EncapsulationKey<MlKem768, Sha2Hash>,
    messages: &MessageList,
    rng: &mut R,
    out: &mut W,
) -> Result<(), SealMailError>
    ensures written { let sealer : Sealer = lattice_sealer ml_kem_768 sha2_family (kdf_algorithm Sha256) (aead_algorithm Aes256) (aead_seal Aes256) mailbox.now [] in
        OnOk result (Wrote W.got W.faults W.plan out.old out.new (mail_text sealer messages.now (R.stream rng.old))) }
    ensures sender_text { let sealer : Sealer = lattice_sealer ml_kem_768 sha2_family (kdf_algorithm Sha256) (aead_algorithm Aes256) (aead_seal Aes256) mailbox.now [] in
        OnOk result (IsSenderText sealer messages.now (fill_bytes 32 (R.stream rng.old)).0 (mail_text sealer messages.now (R.stream rng.old))) }
{
    seal_mail::<MlKem768, Sha2Hash, HkdfSha256, AesGcm256, R, W>(
        alloc, mailbox, b"", messages, rng, out,
    )
}
