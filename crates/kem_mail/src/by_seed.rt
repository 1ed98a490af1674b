//! Opening a mail with the lattice key of a seed.

ghost use Rattle.std.specs.Prelude.{◌≡◌, ◌≢◌, ◌≤◌, ◌⊎◌, ◌++◌, ℕ, List, [], length, None, Ok, Err, IfSome, IsErrOf, Some};
ghost use Rattle.age_format.specs.Outside.{Rose};
ghost use Rattle.kem_hash.specs.Family.{AreBytes};
ghost use Rattle.ml_kem.specs.Keys.{Key, key_of};
ghost use Rattle.decryption_noise.specs.Noise.{AllInside, honest_coins, noise_of};
ghost use Rattle.kem_mail.specs.Mail.{OpensByKey, IsVerdict, Verdict};
ghost use Rattle.kem_mail.specs.Sealing.{lattice_sealer};
ghost use Rattle.kem_mail.specs.SenderText.{SenderText};
ghost use Rattle.kem_mail.specs.Taken.{Lost, IsTaken};

use crate::error::MailError;
use crate::list::MessageList;
use crate::open::open_with;
use age_format::outside::Source;
use hpke::{Aead, Kdf, LatticeKem, LatticePrivateKey};
use kem_hash::KemHash;
use ml_kem::{DecapsulationKey, ParameterSet, Seed};
use std::alloc::Global;

/// Opens the mail that the first `budget` bytes of a source hold, with the lattice key of a seed, as
/// [`open_with`] does.
///
/// `XofExhausted` comes exactly where the seed gives no key, before anything is read, or `NoMemory` in its
/// place.
pub fn open_mail<P: ParameterSet, H: KemHash, D: Kdf, A: Aead, S: Source>(
    alloc: Global,
    seed: &Seed,
    info: &[u8],
    src: &mut S,
    budget: u64,
) -> Result<MessageList, MailError>
    ensures verdict { IfSome (S.left src.old) (λ text. IsVerdict result
        → OpensByKey P.set H.family D.kdf A.aead A.AeadImpl.open_of seed.now info.now text budget result) }

    // A mail whose source doesn't fail comes to its verdict, unless memory runs out.
    ensures complete { IfSome (S.left src.old) (λ text. (verdict : Verdict)
        → OpensByKey P.set H.family D.kdf A.aead A.AeadImpl.open_of seed.now info.now text budget verdict
        → (Rose (S.faults src.old) (S.faults src.new) → ⊥) → (result ≡ verdict) ⊎ (result ≡ Err MailError.NoMemory)) }
    // An honest mail: a text that a sender wrote to this key, by 32 bytes for which all of the noise is inside,
    // opens to the sender's messages, unless memory runs out.
    ensures honest { (key : Key) (messages : List (List ℕ)) (m text rest : List ℕ) → key_of P.set H.family seed.now ≡ Some key
        → AreBytes 32 m → AllInside m (noise_of P.set H.family key m (honest_coins H.family key.ek m))
        → SenderText (lattice_sealer P.set H.family D.kdf A.aead A.AeadImpl.seal_of key.ek info.now) messages m text
        → S.left src.old ≡ Some (text ++ rest) → length text ≤ budget
        → (Rose (S.faults src.old) (S.faults src.new) → ⊥) → (result ≡ Ok messages) ⊎ (result ≡ Err MailError.NoMemory) }
    ensures read_fault { IsErrOf result MailError.ReadFault → Rose (S.faults src.old) (S.faults src.new)
        × (key_of P.set H.family seed.now ≢ None) }

    // The seed alone decides on its key, whatever the source holds, and without one nothing is read.
    ensures has_key { result ≡ Err MailError.XofExhausted → key_of P.set H.family seed.now ≡ None }
    ensures no_key { key_of P.set H.family seed.now ≡ None → (result ≡ Err MailError.XofExhausted) ⊎ (result ≡ Err MailError.NoMemory) }
    ensures unread { key_of P.set H.family seed.now ≡ None → src.new ≡ src.old }

    // What was taken, and what of it held at each refusal.
    ensures taken { Lost (S.left src.old) (S.left src.new) (IsTaken budget result) }
    ensures ended { IsErrOf result MailError.UnexpectedEof → IfSome (S.left src.old) (λ text. S.left src.new ≡ Some []) }
    ensures no_fault { (IsErrOf result MailError.ReadFault → ⊥) → S.faults src.new ≡ S.faults src.old }
    ensures faults { S.faults src.old ≤ S.faults src.new }
{
    let key = DecapsulationKey::<P, H>::from_seed(alloc, seed)?;
    let sk = LatticePrivateKey::new(key);
    open_with::<LatticeKem<P, H>, D, A, S>(alloc, &sk, info, src, budget)
}
