//! The expanded form of decapsulation keys (FIPS 203, sections 6.1 and 7.3): the transforms of s, the
//! encapsulation key, its hash and z.

ghost use Rattle.std.specs.Prelude.{◌≡◌, ◌↔◌, ◌+◌, ◌*◌, ◌^◌, ◌<◌, All, Err, IfOk, IsTrue, length};
ghost use Rattle.std.specs.List.{flat_map};
ghost use Rattle.module_lattice.specs.Groups.{groups};
ghost use Rattle.module_lattice.specs.Ring.{IsPolynomial};
ghost use Rattle.ml_kem.specs.Expanded.{IsExpandedKey, expanded_form, hash_part, key_of_expanded, public_part, same_key, secret_part, z_part};
ghost use Rattle.ml_kem.specs.Keys.{IsEncapsulationKey};
ghost use Rattle.ml_kem.specs.declared.error.KeyError.TheVariants.{InvalidKey};

use crate::bytes::copied;
use crate::decapsulation_key::DecapsulationKey;
use crate::encapsulation_key::{EncapsulationKey, is_encapsulation_key};
use crate::encryption::NUMBER_BITS;
use crate::error::KeyError;
use crate::parameters::{POLYNOMIAL_BYTES, ParameterSet};
use ctutils::CtEqSlice;
use kem_hash::KemHash;
use module_lattice::{BaseField, Encode, NttVector};
use std::alloc::{AllocError, Global};

// The bytes of a hash, and of z.
const HASH_BYTES: usize = 32;

impl<P: ParameterSet, H: KemHash> DecapsulationKey<P, H> {
    /// The key of an expanded form. `InvalidKey` comes exactly where the length isn't DK_SIZE or the hash
    /// of the public part isn't the one that the form carries (the two checks of FIPS 203, section 7.3), or
    /// where the public part is refused by [`EncapsulationKey::new`] (that of section 7.2, which the
    /// standard doesn't ask for here). `NoMemory` comes at want of memory.
    ///
    /// The secret part isn't checked: q is subtracted once from each group of 12 bits of 3329 or more.
    pub fn from_expanded(alloc: Global, enc: &[u8]) -> Result<DecapsulationKey<P, H>, KeyError>
        ensures value { IfOk result (λ key. key ≡ key_of_expanded P.set enc.now) }
        ensures accepted { IfOk result (λ _. IsExpandedKey P.set H.family enc.now) }
        ensures invalid { (result ≡ Err InvalidKey) ↔ (¬ IsExpandedKey P.set H.family enc.now) }
    {
        if !is_expanded_key::<P, H>(enc) {
            return Err(KeyError::InvalidKey);
        }
        let key = read_expanded(alloc, enc)?;
        Ok(key)
    }

    /// The key of an expanded form, as [`DecapsulationKey::from_expanded`] gives it.
    pub fn from_expanded_bytes(
        alloc: Global,
        enc: &[u8],
    ) -> Result<DecapsulationKey<P, H>, KeyError>
        ensures value { IfOk result (λ key. key ≡ key_of_expanded P.set enc.now) }
        ensures accepted { IfOk result (λ _. IsExpandedKey P.set H.family enc.now) }
        ensures invalid { (result ≡ Err InvalidKey) ↔ (¬ IsExpandedKey P.set H.family enc.now) }
    {
        DecapsulationKey::from_expanded(alloc, enc)
    }

    /// The expanded form: DK_SIZE bytes, which [`DecapsulationKey::from_expanded`] takes, and of which it
    /// makes an equal key. It is refused at want of memory alone.
    pub fn to_expanded_bytes(&self) -> Result<Vec<u8>, AllocError>
        ensures value { IfOk result (λ bytes. bytes.items ≡ expanded_form H.family self.now) }
        ensures accepted { IfOk result (λ bytes. IsExpandedKey P.set H.family bytes.items) }
        ensures equal { IfOk result (λ bytes. IsTrue (same_key (key_of_expanded P.set bytes.items) self.now)) }
    {
        let ek = self.encapsulation_key();
        let hash = H::h(ek.as_slice());
        let mut bytes = secret_bytes(ek.allocator(), POLYNOMIAL_BYTES * P::K, self.s_hat())?;
        bytes.extend_from_slice(ek.as_slice())?;
        bytes.extend_from_slice(&hash)?;
        bytes.extend_from_slice(self.z())?;
        Ok(bytes)
    }
}

// The transforms of s, 12 bits for each number, in `size` bytes.
fn secret_bytes(
    alloc: Global,
    size: usize,
    transforms: &NttVector<BaseField>,
) -> Result<Vec<u8>, AllocError>
    requires narrow { All (λ f. All (λ x. x < 2 ^ 12) f) transforms.now }
    requires size { size ≡ 384 * length transforms.now }
    ensures value { IfOk result (λ bytes. bytes.items ≡ flat_map (groups 12) transforms.now) }
    ensures polynomials { IfOk result (λ _. All (IsPolynomial 3329) transforms.now) }
{
    let mut bytes = vec![in alloc; 0; size]?;
    transforms.encode(NUMBER_BITS, bytes.as_mut_slice());
    Ok(bytes)
}

// The checks of FIPS 203, section 7.3, and that of section 7.2 for the public part.
fn is_expanded_key<P: ParameterSet, H: KemHash>(enc: &[u8]) -> bool
    ensures { IsTrue result ↔ IsExpandedKey P.set H.family enc.now }
{
    enc.len() == P::DK_SIZE && are_parts_sound::<P, H>(enc)
}

// Whether the public part is an encapsulation key whose hash is the one behind it.
fn are_parts_sound<P: ParameterSet, H: KemHash>(enc: &[u8]) -> bool
    requires { length enc.now ≡ P.DK_SIZE }
    ensures { IsTrue result ↔ (IsEncapsulationKey P.set (public_part P.set enc.now)
        × (H.family.h_of (public_part P.set enc.now) ≡ hash_part P.set enc.now)) }
{
    let ek = public_bytes::<P>(enc);
    let hash = H::h(ek);
    is_encapsulation_key::<P>(ek) && u8::ct_eq_slice(&hash, hash_bytes::<P>(enc)).to_bool()
}

// The key of an expanded form that passed the checks.
fn read_expanded<P: ParameterSet, H: KemHash>(
    alloc: Global,
    enc: &[u8],
) -> Result<DecapsulationKey<P, H>, AllocError>
    requires { IsExpandedKey P.set H.family enc.now }
    ensures { IfOk result (λ key. key ≡ key_of_expanded P.set enc.now) }
{
    let s_hat = NttVector::decode(alloc, NUMBER_BITS, P::K, secret_bytes_of::<P>(enc))?;
    let ek = EncapsulationKey::from_checked(alloc, public_bytes::<P>(enc))?;
    let z = copied(z_bytes::<P>(enc));
    Ok(DecapsulationKey::from_transforms(s_hat, ek, z))
}

// The parts of an expanded form. First the transforms of s.
fn secret_bytes_of<P: ParameterSet>(enc: &[u8]) -> &[u8]
    requires { length enc.now ≡ P.DK_SIZE }
    ensures value { result.now ≡ secret_part P.set enc.now }
    ensures size { length result.now ≡ 384 * P.K }
{
    &enc[..POLYNOMIAL_BYTES * P::K]
}

// The encapsulation key.
fn public_bytes<P: ParameterSet>(enc: &[u8]) -> &[u8]
    requires { length enc.now ≡ P.DK_SIZE }
    ensures { result.now ≡ public_part P.set enc.now }
{
    let start = POLYNOMIAL_BYTES * P::K;
    &enc[start..start + P::EK_SIZE]
}

// Its hash.
fn hash_bytes<P: ParameterSet>(enc: &[u8]) -> &[u8]
    requires { length enc.now ≡ P.DK_SIZE }
    ensures { result.now ≡ hash_part P.set enc.now }
{
    let start = POLYNOMIAL_BYTES * P::K + P::EK_SIZE;
    &enc[start..start + HASH_BYTES]
}

// The secret of rejections.
fn z_bytes<P: ParameterSet>(enc: &[u8]) -> &[u8]
    requires { length enc.now ≡ P.DK_SIZE }
    ensures value { result.now ≡ z_part P.set enc.now }
    ensures size { length result.now ≡ 32 }
{
    &enc[POLYNOMIAL_BYTES * P::K + P::EK_SIZE + HASH_BYTES..]
}
