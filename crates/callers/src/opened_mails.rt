//! A caller of `kem_mail`.

ghost use Rattle.std.specs.Prelude.{◌<◌, ℕ, [], IfSome, IsErrOf, length};
ghost use Rattle.kem_hash.specs.Sha2.{sha2_family};
ghost use Rattle.ml_kem.specs.Parameters.{ml_kem_768};
ghost use Rattle.mail_commands.specs.Command.{kdf_algorithm, aead_algorithm, aead_open};
ghost use Rattle.kem_mail.specs.Mail.{OpensByKey, IsVerdict};
ghost use Rattle.kem_mail.specs.Taken.{Lost, BeginsList};
ghost use Rattle.mail_commands.specs.declared.command.KdfName.TheVariants.{Sha256};
ghost use Rattle.mail_commands.specs.declared.command.AeadName.TheVariants.{Aes256};

use age_core::outside::Source;
use hpke::{AesGcm256, HkdfSha256};
use kem_hash::Sha2Hash;
use kem_mail::{MailError, MessageList, open_mail};
use ml_kem::{MlKem768, Seed};
use std::alloc::Global;

/// The most bytes of a mail that a mailbox reads.
const BUDGET: u64 = 65_536;

/// Opens the mail of a mailbox with the key of a seed, without an info. At most 65536 bytes are read, and
/// where the source fails, those that were read hold no whole `done`.
pub fn open_mailbox<S: Source>(
    alloc: Global,
    seed: &Seed,
    src: &mut S,
) -> Result<MessageList, MailError>
    ensures verdict { IfSome (S.left src.old) (λ text. IsVerdict result → OpensByKey ml_kem_768 sha2_family
        (kdf_algorithm Sha256) (aead_algorithm Aes256) (aead_open Aes256) seed.now [] text BUDGET result) }
    ensures fault { IsErrOf result MailError.ReadFault
        → Lost (S.left src.old) (S.left src.new) (λ bytes. BeginsList bytes × (length bytes < BUDGET)) }
{
    open_mail::<MlKem768, Sha2Hash, HkdfSha256, AesGcm256, S>(alloc, seed, b"", src, BUDGET)
}
