//! The KEM of ML-KEM at each set: the pairs of keys that an independent model derives, and each call
//! once.

use crate::refusals::reading;
use hpke::laws::{lattice_identifiers, lattice_refusals};
use hpke::{
    Aead, AesGcm256, Deserializable, HkdfSha256, HpkeError, Kdf, Kem, LatticeKem,
    LatticePrivateKey, LatticePublicKey, OpModeR, OpModeS, Serializable, single_shot_open,
    single_shot_seal,
};
use kem_hash::{KemHash, Sha2Hash};
use ml_kem::{Ciphertext, DecapsulationKey, KemError, MlKem512, MlKem768, MlKem1024, ParameterSet};
use rand_chacha::ChaCha20Rng;
use rand_core::{Rng, SeedableRng};
use sha2::{Digest, Sha256};
use std::alloc::{AllocError, Global};
use std::test::Fail;

/// ML-KEM over the family by SHA-2.
type Lattice<P> = LatticeKem<P, Sha2Hash>;

/// The KEM of one set.
type Lattice768 = Lattice<MlKem768>;

/// A derived pair, in hex: the input keying material, the seed and the SHA-256 of the public key.
type Row = [&'static str; 3];

const ROWS_512: [Row; 2] = [
    [
        "",
        "d85f25665b817936156e20bb9b296e0d7d1f97b2af69a8b6c61bfff24804c58934a33d6cd44ba75ec345fe15a3e10937a4d1cb3b218a2378b309a7b8c18ed74a",
        "adfb240bf666a6b3b8275f1361f361e23401b0376b9caa857dbb44398ab84cc5",
    ],
    [
        "768b4dfe3f0ea57d218959ceeef751df17f3241c57254cefe7a7519a8335b0dedc79e12b370b662d96db1bf86766fb74a95df8c0c8b0bc754286dd39844969e5",
        "314c68db7b0208e55cf76f87fd6ed8ce2f00b1bbf5733c59880e37e6bbf67901e61a330c28098e631484125b1fe9e08b3d9f0782443544647edd210ca00dd59d",
        "fe88fa1db966e1da4332975833d354da490b587045e4c92cac1bbf1443d82541",
    ],
];

const ROWS_768: [Row; 2] = [
    [
        "",
        "0b0c123e13281569fe77026b874082a3dbc1f27a6aa0e9c01364c3eb9e33aff448f22dd59abe22f9c8bb07e195990e2f03b366824b02e860354a05545d80a2c2",
        "17aef5226bf9319c450bcc77f0de4791faeb023c6ba9760a040d3311fcf765d3",
    ],
    [
        "ede662f9eba32301e613e6fa40afbaaefcd3cb893c6ff1727dd99169b66ee2691637be5717f787e9e9dd1f419bf5e11206b672ef570d68d0c349a5ae945b30c0",
        "e913bb64c4f4f25e782fb7a8b5ad01983479968d106e1d3d248c511d6330768b8c65c542a4f21c75c7e0143d696c36b8c5e20cec6fc6d55a95a18cb3436e0c36",
        "2af8e9c63a399d9f5e5aa6bcfda9cd27ea376179c4a9baabdef584233999d7f7",
    ],
];

const ROWS_1024: [Row; 2] = [
    [
        "",
        "98eff569f6ca1dd4787769ccb29986c0472e8ed1dba096a30509f13865dd9888297116af4bf2dd926e41c44d63a531b55399294272ea9709d3dacc76b3973ebd",
        "02ddc8ffc011148330762cd183e8a09db4b59421c2d4d769ad763024d3b530e5",
    ],
    [
        "59225ad9d7423086ab95257d42199a3c1ec2198a5f11b4df36aae8188012de0431f0fdc66a9beaa2b315da92ca5aa12127332ab5589fc7a452be6aecb1bacaf3",
        "066b27877b32cc955727095ea8362e644295de23282cc2d2d3e381b12a2fb36e8ede1a4d15bbf943cffb061d7c08d4b8d272e6a9ca7fff5bec6c0715a0f83509",
        "2b15f6e404a3511a39f698ef02695cd02504eb8b0ab372d63c1c7f9918be3fe1",
    ],
];

/// The bytes of a pair of keys, the private key's first.
#[derive(Drop)]
struct PairBytes {
    private: Vec<u8>,
    public: Vec<u8>,
}

// The bytes of a value.
fn bytes_of<T: Serializable>(alloc: Global, value: &T) -> Result<Vec<u8>, AllocError> {
    value.to_bytes(alloc)
}

// The bytes of a pair.
fn pair_bytes<S: Serializable, T: Serializable>(
    alloc: Global,
    sk: &S,
    pk: &T,
) -> Result<PairBytes, AllocError> {
    let private = bytes_of(alloc, sk)?;
    let public = bytes_of(alloc, pk)?;
    Ok(PairBytes { private, public })
}

// The bytes of the pair that keying material gives.
fn derived<K: Kem>(alloc: Global, ikm: &[u8]) -> Result<PairBytes, Fail> {
    let (sk, pk) = K::derive_keypair(alloc, ikm)?;
    Ok(pair_bytes(alloc, &sk, &pk)?)
}

// Whether keying material gives the row's seed and public key.
fn is_derived<K: Kem>(alloc: Global, row: &Row) -> Result<bool, Fail> {
    let ikm = hex::decode(alloc, row[0])?;
    let pair = derived::<K>(alloc, ikm.as_slice())?;
    let seed = hex::encode(alloc, pair.private.as_slice())?;
    let public = hex::encode(alloc, &Sha256::digest(pair.public.as_slice()))?;
    Ok(seed.as_str() == row[1] && public.as_str() == row[2])
}

#[test]
fn derived_pairs(rt: HostRuntime) -> Result<(), Fail> {
    for row in &ROWS_512 {
        assert!(rt; is_derived::<Lattice<MlKem512>>(rt.alloc(), row)?);
    }
    Ok(())
}

#[test]
fn derived_pairs_768(rt: HostRuntime) -> Result<(), Fail> {
    for row in &ROWS_768 {
        assert!(rt; is_derived::<Lattice<MlKem768>>(rt.alloc(), row)?);
    }
    Ok(())
}

#[test]
fn derived_pairs_1024(rt: HostRuntime) -> Result<(), Fail> {
    for row in &ROWS_1024 {
        assert!(rt; is_derived::<Lattice<MlKem1024>>(rt.alloc(), row)?);
    }
    Ok(())
}

// The bytes of a pair that is drawn.
fn drawn<K: Kem>(alloc: Global) -> Result<PairBytes, Fail> {
    let mut rng = ChaCha20Rng::from_seed([7; 32]);
    let (sk, pk) = K::gen_keypair(alloc, &mut rng)?;
    Ok(pair_bytes(alloc, &sk, &pk)?)
}

// The bytes of the pair of a private key that is read from its bytes.
fn made<K: Kem>(alloc: Global, private: &[u8]) -> Result<PairBytes, Fail> {
    let sk = K::PrivateKey::from_bytes(alloc, private)?;
    let pk = K::sk_to_pk(alloc, &sk)?;
    Ok(pair_bytes(alloc, &sk, &pk)?)
}

// The private key of a seed's decapsulation key.
fn private_of_seed<P: ParameterSet, H: KemHash>(
    alloc: Global,
    seed: &[u8; 64],
) -> Result<LatticePrivateKey<P, H>, KemError> {
    let key = DecapsulationKey::<P, H>::from_seed(alloc, seed)?;
    Ok(LatticePrivateKey::new(key))
}

// The public key of a seed's decapsulation key.
fn public_of_seed<P: ParameterSet, H: KemHash>(
    alloc: Global,
    seed: &[u8; 64],
) -> Result<LatticePublicKey<P, H>, KemError> {
    let key = DecapsulationKey::<P, H>::from_seed(alloc, seed)?;
    let copy = key.encapsulation_key().try_clone()?;
    Ok(LatticePublicKey::new(copy))
}

// The bytes of the pair of a decapsulation key.
fn of_key<P: ParameterSet, H: KemHash>(alloc: Global, seed: &[u8; 64]) -> Result<PairBytes, Fail> {
    let sk = private_of_seed::<P, H>(alloc, seed)?;
    let pk = public_of_seed::<P, H>(alloc, seed)?;
    Ok(pair_bytes(alloc, &sk, &pk)?)
}

// The bytes of a public key that is read from its bytes.
fn read<K: Kem>(alloc: Global, public: &[u8]) -> Result<Vec<u8>, Fail> {
    let pk = K::PublicKey::from_bytes(alloc, public)?;
    Ok(bytes_of(alloc, &pk)?)
}

fn is_same(left: &PairBytes, right: &PairBytes) -> bool {
    left.private.as_slice() == right.private.as_slice()
        && left.public.as_slice() == right.public.as_slice()
}

// Whether a pair that is drawn, what the same 64 bytes derive, and what is made of the pair's bytes
// are one pair.
fn is_one_pair<K: Kem>(alloc: Global) -> Result<bool, Fail> {
    let mut ikm = [0; 64];
    ChaCha20Rng::from_seed([7; 32]).fill_bytes(&mut ikm);
    let drawn = drawn::<K>(alloc)?;
    let derived = derived::<K>(alloc, &ikm)?;
    let made = made::<K>(alloc, drawn.private.as_slice())?;
    let read = read::<K>(alloc, drawn.public.as_slice())?;
    let is_read = read.as_slice() == drawn.public.as_slice();
    Ok(is_same(&drawn, &derived) && is_same(&drawn, &made) && is_read)
}

#[test]
fn pairs_of_keys(rt: HostRuntime) -> Result<(), Fail> {
    assert!(rt; is_one_pair::<Lattice<MlKem512>>(rt.alloc())?);
    assert!(rt; is_one_pair::<Lattice<MlKem768>>(rt.alloc())?);
    assert!(rt; is_one_pair::<Lattice<MlKem1024>>(rt.alloc())?);
    Ok(())
}

// Whether the pair of a seed's decapsulation key is what is made of the seed.
fn is_of_key<P: ParameterSet, H: KemHash>(alloc: Global, seed: &[u8; 64]) -> Result<bool, Fail> {
    let pair = of_key::<P, H>(alloc, seed)?;
    let made = made::<LatticeKem<P, H>>(alloc, seed)?;
    Ok(is_same(&pair, &made) && pair.private.as_slice() == seed.as_slice())
}

// Keys of ML-KEM are keys of the KEM.
#[test]
fn keys_of_a_seed(rt: HostRuntime) -> Result<(), Fail> {
    assert!(rt; is_of_key::<MlKem768, Sha2Hash>(rt.alloc(), &[5; 64])?);
    Ok(())
}

#[test]
fn laws_are_calls(_rt: HostRuntime) -> Result<(), Fail> {
    lattice_identifiers::<Sha2Hash>();
    lattice_refusals();
    Ok(())
}

// What a recipient opens of a text that a sender sealed to its key.
fn opened<A: Aead, D: Kdf, K: Kem>(alloc: Global, text: &[u8]) -> Result<Vec<u8>, Fail> {
    let mut rng = ChaCha20Rng::from_seed([9; 32]);
    let (sk, pk) = K::gen_keypair(alloc, &mut rng)?;
    let (encapped, sealed) = single_shot_seal::<A, D, K, ChaCha20Rng>(
        alloc,
        &OpModeS::Base,
        &pk,
        b"info",
        text,
        b"associated",
        &mut rng,
    )?;
    Ok(single_shot_open::<A, D, K>(
        alloc,
        &OpModeR::Base,
        &sk,
        &encapped,
        b"info",
        sealed.as_slice(),
        b"associated",
    )?)
}

// Whether a recipient opens what a sender sealed.
fn is_opened<P: ParameterSet>(alloc: Global) -> Result<bool, Fail> {
    let text = b"text".as_slice();
    let opened = opened::<AesGcm256, HkdfSha256, Lattice<P>>(alloc, text)?;
    Ok(opened.as_slice() == text)
}

#[test]
fn texts_are_opened(rt: HostRuntime) -> Result<(), Fail> {
    assert!(rt; is_opened::<MlKem512>(rt.alloc())?);
    assert!(rt; is_opened::<MlKem768>(rt.alloc())?);
    assert!(rt; is_opened::<MlKem1024>(rt.alloc())?);
    Ok(())
}

#[test]
fn refused_private_keys(rt: HostRuntime) -> Result<(), Fail> {
    let short = reading::<LatticePrivateKey<MlKem768, Sha2Hash>>(rt.alloc(), &[0xFF; 63]);
    assert!(rt; short == Some(HpkeError::IncorrectInputLength(64, 63)));
    Ok(())
}

#[test]
fn refused_public_keys(rt: HostRuntime) -> Result<(), Fail> {
    let short = reading::<LatticePublicKey<MlKem768, Sha2Hash>>(rt.alloc(), &[0xFF; 1183]);
    assert!(rt; short == Some(HpkeError::IncorrectInputLength(1184, 1183)));
    let unreduced = reading::<LatticePublicKey<MlKem768, Sha2Hash>>(rt.alloc(), &[0xFF; 1184]);
    assert!(rt; unreduced == Some(HpkeError::ValidationError));
    Ok(())
}

#[test]
fn refused_encapsulated_keys(rt: HostRuntime) -> Result<(), Fail> {
    let long = reading::<Ciphertext<MlKem768>>(rt.alloc(), &[0xFF; 1184]);
    assert!(rt; long == Some(HpkeError::IncorrectInputLength(1088, 1184)));
    Ok(())
}

// Whether a recipient finds the sender's secret, also of an encapsulated key that is read from its
// bytes.
fn finds_the_secret(alloc: Global) -> Result<bool, Fail> {
    let mut rng = ChaCha20Rng::from_seed([9; 32]);
    let (sk, pk) = Lattice768::gen_keypair(alloc, &mut rng)?;
    let (sent, encapped) = Lattice768::encap(alloc, &pk, None, None, &mut rng)?;
    let bytes = bytes_of(alloc, &encapped)?;
    let read = Ciphertext::<MlKem768>::from_bytes(alloc, bytes.as_slice())?;
    let found = Lattice768::decap(alloc, &sk, None, &read)?;
    Ok(found.as_slice() == sent.as_slice())
}

#[test]
fn secrets_are_found(rt: HostRuntime) -> Result<(), Fail> {
    assert!(rt; finds_the_secret(rt.alloc())?);
    Ok(())
}

// What a sender with an identity is refused with, and a recipient that is told of one.
fn identity_refusals<K: Kem>(alloc: Global) -> Result<[Option<HpkeError>; 2], Fail> {
    let mut rng = ChaCha20Rng::from_seed([9; 32]);
    let (sk, pk) = K::gen_keypair(alloc, &mut rng)?;
    let encapped = K::EncappedKey::from_bytes(alloc, &[0; 1088])?;
    let sending = K::encap(alloc, &pk, Some(&sk), Some(&pk), &mut rng).err();
    let receiving = K::decap(alloc, &sk, Some(&pk), &encapped).err();
    Ok([sending, receiving])
}

#[test]
fn identities_are_refused(rt: HostRuntime) -> Result<(), Fail> {
    let refused = identity_refusals::<Lattice768>(rt.alloc())?;
    assert!(rt; refused == [Some(HpkeError::EncapError), Some(HpkeError::DecapError)]);
    Ok(())
}
