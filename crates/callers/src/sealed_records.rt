//! A caller of `gcm_core`.

ghost use Rattle.std.specs.Prelude.{◌≡◌, ◌++◌, ℕ, List, Some, OnOk, OnErr};
ghost use Rattle.gcm_core.specs.Gcm.{seal_of};

use gcm_core::{AesGcm256Impl, NotAuthentic, laws};

/// Moves a sealed text to another key: opens it under the old key, and seals the text under the
/// other one, with the same nonce and associated data. What the old key doesn't open stays as it
/// was, with its tag.
pub fn reseal(
    old_key: &[u8; 32],
    other_key: &[u8; 32],
    nonce: &[u8; 12],
    aad: &[u8],
    sealed: &mut [u8],
    tag: &mut [u8; 16],
) -> Result<(), NotAuthentic>
    ensures resealed { OnOk result ((text : List ℕ)
        × (seal_of old_key.now nonce.now aad.now text ≡ Some (sealed.old ++ tag.old))
        × (seal_of other_key.now nonce.now aad.now text ≡ Some (sealed.new ++ tag.new))) }
    ensures refused { OnErr result ((sealed.new ≡ sealed.old) × (tag.new ≡ tag.old)) }
{
    laws::opens_what_was_sealed();
    AesGcm256Impl::new(old_key).open_in_place(nonce, aad, sealed, tag)?;
    match AesGcm256Impl::new(other_key).seal_in_place(nonce, aad, sealed, tag) {
        Ok(()) => Ok(()),
        Err(_) => unreachable!(),
    }
}
