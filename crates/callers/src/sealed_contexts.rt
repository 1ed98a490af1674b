//! A caller of `hpke`.

ghost use Rattle.std.specs.Prelude.{◌≡◌, codes, [], None, Some, IfErr, IfOk};
ghost use Rattle.std.specs.Option.{option_and_then};
ghost use Rattle.hpke.specs.Schedule.{mode_base, receiver_setup, suite_of};
ghost use Rattle.hpke.specs.SingleShot.{opened_once};
ghost use Rattle.hpke.specs.declared.error.HpkeError.TheVariants.{NoMemory};

use hpke::{
    Aead, BaseAead, Deserializable, HpkeError, Kdf, Kem, OpModeR, Serializable, single_shot_open,
};
use std::alloc::Global;

/// Writes a key and reads it back, as a program does that stores one: it is the same key, and the
/// only refusal is want of memory.
pub fn stored_and_loaded<T: Deserializable + Drop>(alloc: Global, key: &T) -> Result<T, HpkeError>
    ensures same { IfOk result (λ loaded. T.bytes loaded ≡ T.bytes key.now) }
    ensures refused { IfErr result (λ e. e ≡ NoMemory) }
{
    let encoded = key.to_bytes(alloc)?;
    T::from_bytes(alloc, encoded.as_slice())
}

/// Opens a letter: the bytes of an encapsulated key, and one text that was sealed in mode Base, with
/// `letter` as the info and without associated data.
pub fn open_letter<A: Aead, D: Kdf, K: Kem>(
    alloc: Global,
    sk: &K::PrivateKey,
    encapped: &[u8],
    sealed: &[u8],
) -> Result<Vec<u8>, HpkeError>
    ensures { let secret = K.decap_of (K.PrivateKey.bytes sk.now) None encapped.now in
        let setup = receiver_setup (suite_of K.KEM_ID D.kdf A.aead) mode_base (codes "letter") secret in
        IfOk result (λ text. option_and_then (opened_once A.AeadImpl.open_of [] sealed.now) setup ≡ Some text.items) }
{
    let encapped_key = K::EncappedKey::from_bytes(alloc, encapped)?;
    single_shot_open::<A, D, K>(
        alloc,
        &OpModeR::Base,
        sk,
        &encapped_key,
        b"letter",
        sealed,
        b"",
    )
}
