//! The KEM of ML-KEM (FIPS 203), over any parameter set and any lawful family of hash functions.

ghost use Rattle.std.specs.Prelude.{◌≡◌, IsSome, Some, None, Ok, Err, IfOk, length};
ghost use Rattle.std.specs.Option.{option_map};
ghost use Rattle.ml_kem.specs.Expanded.{key_of_seed};
ghost use Rattle.ml_kem.specs.Keys.{IsEncapsulationKey, key_of};
ghost use Rattle.ml_kem.specs.declared.error.KemError.TheVariants.{NoMemory as KemNoMemory, XofExhausted};
ghost use Rattle.hpke.specs.Lattice.{IsLatticeSeed, lattice_kem_id, lattice_seed};
ghost use Rattle.hpke.specs.declared.error.HpkeError.TheVariants.{NoMemory};

use crate::error::HpkeError;
use crate::kdf::derive_short;
use crate::kem::Kem;
use crate::secret::{SecretSize, SharedSecret};
use crate::serial::{Deserializable, Serializable};
use kem_hash::KemHash;
use ml_kem::{
    Ciphertext, CiphertextError, DecapsulationKey, EncapsulationKey, KemError, KeyError,
    ParameterSet, Seed,
};
use rand_core::Rng;
use std::alloc::{AllocError, Global};
use std::marker::{Model, PhantomData};

/// How many bytes a private key has.
const SEED_LEN: usize = 64;

/// How many bytes a secret has.
const SECRET_LEN: usize = 32;

/// How many bytes an encapsulation draws.
const MESSAGE_LEN: usize = 32;

/// The identifier of the KEM over ML-KEM-512. A set whose vectors have one polynomial more has the next.
const FIRST_KEM_ID: u16 = 0x0040;

/// How many polynomials a vector of ML-KEM-512 has.
const FIRST_K: usize = 2;

/// A public key of [`LatticeKem`]: EK_SIZE bytes.
#[derive(Drop)]
pub struct LatticePublicKey<P: ParameterSet, H: KemHash> {
    key: EncapsulationKey<P, H>,
}

impl<P: ParameterSet, H: KemHash> Model for LatticePublicKey<P, H> {
    ghost use Rattle.std.specs.Prelude.{ℕ, List};

    ghost Value = { List ℕ };

    ghost view = { λ public. public.key };
}

impl<P: ParameterSet, H: KemHash> LatticePublicKey<P, H> {
    /// The public key of an encapsulation key. It takes no memory.
    pub fn new(key: EncapsulationKey<P, H>) -> LatticePublicKey<P, H>
        ensures { result ≡ key }
    {
        LatticePublicKey { key }
    }
}

impl<P: ParameterSet, H: KemHash> Serializable for LatticePublicKey<P, H> {
    ghost bytes = { λ public. public };

    ghost wire_size = { P.EK_SIZE };

    ghost has_value = { IsEncapsulationKey P.set };

    fn size() -> usize {
        P::EK_SIZE
    }

    fn write_exact(&self, buffer: &mut [u8]) {
        self.key.write_bytes(buffer);
    }

    ghost use Rattle.std.proofs.Common.{ap, ◌∙◌};
    ghost use Rattle.ml_kem.specs.Parameters.{Parameters};

    ghost value_size = { λ _ is. is.size ∙ ap (λ (set : Parameters). set.ek_size) P.constants };
}

impl<P: ParameterSet, H: KemHash> Deserializable for LatticePublicKey<P, H> {
    ghost use Rattle.std.specs.Prelude.{⊤};

    ghost takes_memory = { ⊤ };

    fn from_bytes(alloc: Global, encoded: &[u8]) -> Result<LatticePublicKey<P, H>, HpkeError> {
        if encoded.len() != P::EK_SIZE {
            return Err(HpkeError::IncorrectInputLength(P::EK_SIZE, encoded.len()));
        }
        match EncapsulationKey::new(alloc, encoded) {
            Ok(key) => Ok(LatticePublicKey::new(key)),
            Err(KeyError::NoMemory) => Err(HpkeError::NoMemory),
            Err(KeyError::InvalidKey) => Err(HpkeError::ValidationError),
        }
    }
}

/// A private key of [`LatticeKem`]: the 64 bytes of its seed.
#[derive(Drop)]
pub struct LatticePrivateKey<P: ParameterSet, H: KemHash> {
    seed: Seed,
    key: DecapsulationKey<P, H>,
}

impl<P: ParameterSet, H: KemHash> Model for LatticePrivateKey<P, H> {
    ghost use Rattle.std.specs.Prelude.{◌≡◌, ℕ, List, Some};
    ghost use Rattle.std.specs.Option.{option_map};
    ghost use Rattle.ml_kem.specs.Expanded.{key_of_seed};
    ghost use Rattle.ml_kem.specs.Keys.{key_of};

    ghost Value = { List ℕ };

    ghost view = { λ private. private.seed };

    ghost invariant = { λ private. option_map (key_of_seed private.seed) (key_of P.set H.family private.seed) ≡ Some private.key };
}

impl<P: ParameterSet, H: KemHash> LatticePrivateKey<P, H> {
    /// The private key of a decapsulation key that was made from a seed, as `to_seed` tells. It takes
    /// no memory.
    pub fn new(key: DecapsulationKey<P, H>) -> LatticePrivateKey<P, H>
        requires { IsSome key.seed }
        ensures { key.seed ≡ Some result }
    {
        let seed = key.to_seed().unwrap();
        LatticePrivateKey { seed, key }
    }
}

impl<P: ParameterSet, H: KemHash> Serializable for LatticePrivateKey<P, H> {
    ghost bytes = { λ private. private };

    ghost wire_size = { 64 };

    ghost has_value = { IsLatticeSeed P.set H.family };

    fn size() -> usize {
        SEED_LEN
    }

    fn write_exact(&self, buffer: &mut [u8]) {
        buffer.copy_from_slice(&self.seed);
    }

    ghost value_size = { λ _ is. is.0 };
}

impl<P: ParameterSet, H: KemHash> Deserializable for LatticePrivateKey<P, H> {
    ghost use Rattle.std.specs.Prelude.{⊤};

    ghost takes_memory = { ⊤ };

    fn from_bytes(alloc: Global, encoded: &[u8]) -> Result<LatticePrivateKey<P, H>, HpkeError> {
        if encoded.len() != SEED_LEN {
            return Err(HpkeError::IncorrectInputLength(SEED_LEN, encoded.len()));
        }
        let mut seed = [0; SEED_LEN];
        seed.copy_from_slice(encoded);
        match DecapsulationKey::from_seed(alloc, &seed) {
            Ok(key) => Ok(LatticePrivateKey { seed, key }),
            Err(error) => Err(refusal(error, HpkeError::ValidationError)),
        }
    }
}

impl<P: ParameterSet> Serializable for Ciphertext<P> {
    ghost bytes = { λ ciphertext. ciphertext };

    ghost wire_size = { P.CT_SIZE };

    ghost has_value = { λ bytes. length bytes ≡ P.CT_SIZE };

    fn size() -> usize {
        P::CT_SIZE
    }

    fn write_exact(&self, buffer: &mut [u8]) {
        buffer.copy_from_slice(self.as_slice());
    }

    ghost value_size = { λ _ size. size };
}

impl<P: ParameterSet> Deserializable for Ciphertext<P> {
    ghost use Rattle.std.specs.Prelude.{⊤};

    ghost takes_memory = { ⊤ };

    fn from_bytes(alloc: Global, encoded: &[u8]) -> Result<Ciphertext<P>, HpkeError> {
        match Ciphertext::from_slice(alloc, encoded) {
            Ok(ciphertext) => Ok(ciphertext),
            Err(CiphertextError::NoMemory) => Err(HpkeError::NoMemory),
            Err(CiphertextError::WrongLength(expected, given)) => {
                Err(HpkeError::IncorrectInputLength(expected, given))
            }
        }
    }
}

/// ML-KEM as a KEM: the encapsulated key is the ciphertext, and the secret is the shared key.
///
/// A sender's identity is refused: by `DecapError` and by `EncapError`. `EncapError` comes too exactly
/// where a sample of the public key's matrix is none, and `ValidationError` of a private key and of
/// input keying material exactly where one of the seed's matrix is.
pub struct LatticeKem<P: ParameterSet, H: KemHash> {
    set: PhantomData<P>,
    hash: PhantomData<H>,
}

impl<P: ParameterSet, H: KemHash> SecretSize for LatticeKem<P, H> {
    const N_SECRET: usize = SECRET_LEN;

    ghost N_SECRET = { 32 };

    ghost use Rattle.std.proofs.Common.{rules};

    ghost secret_within = { Prim.search rules };
}

impl<P: ParameterSet, H: KemHash> Kem for LatticeKem<P, H> {
    ghost use Rattle.hpke.specs.Lattice.{lattice_decap, lattice_derive, lattice_encap, lattice_kem_id, lattice_public};

    type PublicKey = LatticePublicKey<P, H>;

    type PrivateKey = LatticePrivateKey<P, H>;

    type EncappedKey = Ciphertext<P>;

    const KEM_ID: u16 = FIRST_KEM_ID + (P::K - FIRST_K) as u16;

    ghost use Rattle.std.specs.Prelude.{⊤};

    ghost KEM_ID = { lattice_kem_id P.set };

    ghost takes_memory = { ⊤ };

    ghost pk_of = { lattice_public P.set H.family };

    ghost decap_of = { lattice_decap P.set H.family };

    ghost encap_of = { lattice_encap P.set H.family };

    ghost derive_of = { lattice_derive P.set H.family };

    fn sk_to_pk(
        _alloc: Global,
        sk: &LatticePrivateKey<P, H>,
    ) -> Result<LatticePublicKey<P, H>, AllocError> {
        let key = sk.key.encapsulation_key().try_clone()?;
        Ok(LatticePublicKey::new(key))
    }

    fn derive_keypair(
        alloc: Global,
        ikm: &[u8],
    ) -> Result<(LatticePrivateKey<P, H>, LatticePublicKey<P, H>), HpkeError> {
        let seed = derive_seed::<P>(Self::KEM_ID, ikm);
        let sk = LatticePrivateKey::from_bytes(alloc, &seed)?;
        let pk = Self::sk_to_pk(alloc, &sk)?;
        Ok((sk, pk))
    }

    fn decap(
        _alloc: Global,
        sk_recip: &LatticePrivateKey<P, H>,
        pk_sender_id: Option<&LatticePublicKey<P, H>>,
        encapped_key: &Ciphertext<P>,
    ) -> Result<SharedSecret<LatticeKem<P, H>>, HpkeError> {
        let key = &sk_recip.key;
        if pk_sender_id.is_some() {
            return Err(HpkeError::DecapError);
        }
        match key.decapsulate(encapped_key) {
            Ok(secret) => Ok(SharedSecret::new(&secret)),
            Err(error) => Err(refusal(error, HpkeError::DecapError)),
        }
    }

    fn encap<R: Rng>(
        _alloc: Global,
        pk_recip: &LatticePublicKey<P, H>,
        sk_sender_id: Option<&LatticePrivateKey<P, H>>,
        _pk_sender_id: Option<&LatticePublicKey<P, H>>,
        csprng: &mut R,
    ) -> Result<(SharedSecret<LatticeKem<P, H>>, Ciphertext<P>), HpkeError> {
        let mut draw = [0; MESSAGE_LEN];
        csprng.fill_bytes(&mut draw);
        if sk_sender_id.is_some() {
            return Err(HpkeError::EncapError);
        }
        match pk_recip.key.encapsulate_deterministic(&draw) {
            Ok(made) => {
                let (ciphertext, secret) = made;
                Ok((SharedSecret::new(&secret), ciphertext))
            }
            Err(error) => Err(refusal(error, HpkeError::EncapError)),
        }
    }

    ghost use Rattle.hpke.specs.private.LatticeLaws.{lattice_decap-size, lattice_decap-there, lattice_derive-pair, lattice_encap-size};

    ghost derive_pair = { lattice_derive-pair P.set H.family };

    ghost encap_size = { λ pk sender draw secret enc _ _ is. lattice_encap-size P.set H.family H.is_lawful pk sender draw secret enc is };

    ghost decap_size = { λ sk sender enc secret _ _ is. lattice_decap-size P.set H.family H.is_lawful sk sender enc secret is };

    ghost decap_without_sender = { λ sk enc is _. lattice_decap-there P.set H.family sk enc is.1 };

    ghost encapped_key_any = { λ _ _ size. size };
}

// The seed of input keying material.
fn derive_seed<P: ParameterSet>(kem_id: u16, ikm: &[u8]) -> Seed
    requires { kem_id ≡ lattice_kem_id P.set }
    ensures { result ≡ lattice_seed P.set ikm.now }
{
    let short = derive_short(kem_id, ikm, SEED_LEN);
    let mut seed = [0; SEED_LEN];
    seed.copy_from_slice(short.as_slice());
    seed
}

// Want of memory, or what it means here that a sample of a matrix is none.
fn refusal(error: KemError, exhausted: HpkeError) -> HpkeError
    ensures memory { error ≡ KemNoMemory → result ≡ NoMemory }
    ensures exhausted { error ≡ XofExhausted → result ≡ exhausted }
{
    match error {
        KemError::NoMemory => HpkeError::NoMemory,
        KemError::XofExhausted => exhausted,
    }
}
