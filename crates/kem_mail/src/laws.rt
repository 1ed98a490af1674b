//! Laws of the definitions, each as the contract of a function that does nothing.

ghost use Rattle.std.specs.Prelude.{◌≡◌, ◌≢◌, ◌≤◌, ◌++◌, ℕ, List, length, Option, None, Some, Ok};
ghost use Rattle.kem_hash.specs.Family.{AreBytes, Family};
ghost use Rattle.ml_kem.specs.Encapsulation.{decaps, encaps};
ghost use Rattle.ml_kem.specs.Keys.{Key, key_of};
ghost use Rattle.ml_kem.specs.Parameters.{IsSet, Parameters};
ghost use Rattle.decryption_noise.specs.Noise.{AllInside, honest_coins, noise_of};
ghost use Rattle.hpke.specs.Lattice.{lattice_decap, lattice_encap};
ghost use Rattle.hpke.specs.Mask.{mask_decap, mask_encap, mask_public};
ghost use Rattle.hpke.specs.Schedule.{KdfAlgorithm, AeadAlgorithm, Context, Mode, Suite, receiver_setup, sender_setup};
ghost use Rattle.kem_mail.specs.Mail.{Opener, OpenMeaning, Opens, OpensByKey, IsVerdict, SameBodies, Verdict, opener_of};
ghost use Rattle.kem_mail.specs.Sealing.{lattice_sealer, sealer_of};
ghost use Rattle.kem_mail.specs.SenderText.{SenderText};

use hpke::Aead;

/// No mail comes to two verdicts, none is without one, and none comes to want of memory or to a fault of
/// the source.
pub fn one_verdict()
    ensures one { (opener : Opener) (text : List ℕ) (budget : ℕ) (verdict other : Verdict)
        → Opens opener text budget verdict → Opens opener text budget other → verdict ≡ other }
    ensures some { (opener : Opener) (text : List ℕ) (budget : ℕ)
        → ((verdict : Verdict) → Opens opener text budget verdict → ⊥) → ⊥ }
    ensures of_the_mail { (opener : Opener) (text : List ℕ) (budget : ℕ) (verdict : Verdict)
        → Opens opener text budget verdict → IsVerdict verdict }
{}

/// Stanzas of other tags, and arguments, change no answer: mails whose `kem` bodies are the same in order,
/// and whose `msg` bodies are, come to the same, also by a lattice key.
pub fn same_bodies()
    ensures opens { (opener : Opener) (text other : List ℕ) (budget limit : ℕ) (verdict : Verdict)
        → SameBodies text budget other limit → Opens opener text budget verdict → Opens opener other limit verdict }
    ensures by_key { (set : Parameters) (family : Family) (kdf : KdfAlgorithm) (aead : AeadAlgorithm) (open_of : OpenMeaning)
        (seed info text other : List ℕ) (budget limit : ℕ) (verdict : Verdict)
        → SameBodies text budget other limit → OpensByKey set family kdf aead open_of seed info text budget verdict
        → OpensByKey set family kdf aead open_of seed info other limit verdict }
{}

/// What a sender wrote opens to its messages, whatever stands behind it, within a budget that holds it: where
/// the encapsulated key has its length, and decapsulation of it gives the secret. So it does by a lattice
/// key, where decapsulation of the ciphertext gives the shared key of the encapsulation; and always over the
/// test KEM.
pub fn sealed_text_opens<A: Aead>()
    ensures any { (suite : Suite) (info : List ℕ) (size : ℕ) (encap : List ℕ → Option (List ℕ × List ℕ)) (decap : List ℕ → Option (List ℕ))
        (messages : List (List ℕ)) (draw shared key text rest : List ℕ) (budget : ℕ)
        → encap draw ≡ Some (shared, key) → decap key ≡ Some shared → length key ≡ size
        → SenderText (sealer_of suite info encap A.AeadImpl.seal_of) messages draw text → length text ≤ budget
        → Opens (opener_of suite info size decap A.AeadImpl.open_of) (text ++ rest) budget (Ok messages) }
    ensures lattice { (set : Parameters) (family : Family) (kdf : KdfAlgorithm) (aead : AeadAlgorithm) (seed info : List ℕ) (key : Key)
        (messages : List (List ℕ)) (m c shared text rest : List ℕ) (budget : ℕ) → key_of set family seed ≡ Some key
        → encaps set family key.ek m ≡ Some (c, shared) → decaps set family key.s key.ek key.z c ≡ Some shared → length c ≡ set.ct_size
        → SenderText (lattice_sealer set family kdf aead A.AeadImpl.seal_of key.ek info) messages m text → length text ≤ budget
        → OpensByKey set family kdf aead A.AeadImpl.open_of seed info (text ++ rest) budget (Ok messages) }
    ensures mask { (suite : Suite) (info sk draw : List ℕ) (messages : List (List ℕ)) (text rest : List ℕ) (budget : ℕ) → length draw ≡ 32
        → SenderText (sealer_of suite info (mask_encap (mask_public sk) None) A.AeadImpl.seal_of) messages draw text → length text ≤ budget
        → Opens (opener_of suite info 32 (mask_decap sk None) A.AeadImpl.open_of) (text ++ rest) budget (Ok messages) }
{}

/// An honest mail opens: a text that a sender wrote to the key of a seed, by 32 bytes for which all of the
/// noise of the decryption is inside its intervals, opens to exactly the sender's messages, whatever stands
/// behind it, within a budget that holds it.
pub fn honest_mail_opens<A: Aead>()
    ensures { (set : Parameters) (family : Family) (kdf : KdfAlgorithm) (aead : AeadAlgorithm) (seed info : List ℕ) (key : Key)
        (messages : List (List ℕ)) (m text rest : List ℕ) (budget : ℕ) → IsSet set → key_of set family seed ≡ Some key → AreBytes 32 m
        → AllInside m (noise_of set family key m (honest_coins family key.ek m))
        → SenderText (lattice_sealer set family kdf aead A.AeadImpl.seal_of key.ek info) messages m text → length text ≤ budget
        → OpensByKey set family kdf aead A.AeadImpl.open_of seed info (text ++ rest) budget (Ok messages) }
{}

/// Both sides of a setup over the lattice KEM have one context where all of the noise of the decryption is
/// inside its intervals. To the key of a seed, by 32 bytes that are drawn: the recipient finds the secret
/// that the sender encapsulated; and so, whatever the suite, the mode and the info, the context of the sender
/// is the recipient's, with one key, one base nonce and one exporter secret (RFC 9180, section 5.1). Without a
/// sender's identity there is a context; with one the lattice KEM encapsulates nothing.
pub fn honest_sides_agree()
    ensures secret { (set : Parameters) (family : Family) (seed m : List ℕ) (key : Key) → IsSet set → key_of set family seed ≡ Some key → AreBytes 32 m
        → AllInside m (noise_of set family key m (honest_coins family key.ek m))
        → (identity : Option (List ℕ × List ℕ)) (sender : Option (List ℕ)) → (identity ≡ None → sender ≡ None)
        → (shared enc : List ℕ) → lattice_encap set family key.ek identity m ≡ Some (shared, enc)
        → lattice_decap set family seed sender enc ≡ Some shared }
    ensures context { (set : Parameters) (family : Family) (seed m : List ℕ) (key : Key) → IsSet set → key_of set family seed ≡ Some key → AreBytes 32 m
        → AllInside m (noise_of set family key m (honest_coins family key.ek m))
        → (identity : Option (List ℕ × List ℕ)) (sender : Option (List ℕ)) → (identity ≡ None → sender ≡ None)
        → (suite : Suite) (mode : Mode) (info enc : List ℕ) (context : Context)
        → sender_setup suite mode info (lattice_encap set family key.ek identity m) ≡ Some (enc, context)
        → receiver_setup suite mode info (lattice_decap set family seed sender enc) ≡ Some context }
    ensures there { (set : Parameters) (family : Family) (seed m : List ℕ) (key : Key) → key_of set family seed ≡ Some key
        → (suite : Suite) (mode : Mode) (info : List ℕ) → sender_setup suite mode info (lattice_encap set family key.ek None m) ≢ None }
    ensures with_identity { (set : Parameters) (family : Family) (pk m : List ℕ) (identity : List ℕ × List ℕ)
        → (suite : Suite) (mode : Mode) (info : List ℕ) → sender_setup suite mode info (lattice_encap set family pk (Some identity) m) ≡ None }
{}
