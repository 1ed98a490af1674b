//! Values of an independent model, in hex, and one call of each function.

ghost use Rattle.std.specs.Prelude.{◌++◌, ◌-◌, min, replicate, take};
ghost use Rattle.rand_core.specs.Steps.{stream_of};

use age_format::outside::MemSink;
use age_primitives::{
    FILE_KEY_BYTES, FileKey, aead_decrypt, aead_encrypt, bech32_decode, bech32_encode,
    bech32_encode_to_fmt, hkdf, hpke_open, hpke_seal,
};
use bech32_long::{Bech32Error, Hrp};
use gcm_core::AesGcm256Impl;
use hpke::{AesGcm256, Deserializable, HpkeError, Kem, LatticeKem, Serializable};
use kem_hash::Sha2Hash;
use ml_kem::MlKem768;
use rand_core::Rng;
use sha2::{Digest, Sha256};
use std::alloc::Global;
use std::test::Fail;

/// A generator that draws these bytes at each call, and zeros behind them.
#[derive(Drop)]
struct FixedDraw {
    bytes: [u8; 32],
}

impl Rng for FixedDraw {
    ghost stream = { λ draw. stream_of (record {
      next_u32 = λ s. (0, s);
      next_u64 = λ s. (0, s);
      fill_bytes = λ n s. (take (min n 32) s ++ replicate (n - min n 32) 0, s);
    }) draw.bytes };

    fn next_u32(&mut self) -> u32 {
        0
    }

    fn next_u64(&mut self) -> u64 {
        0
    }

    fn fill_bytes(&mut self, dst: &mut [u8]) {
        let at = dst.len().min(32);
        let (front, rest) = dst.split_at_mut(at);
        front.copy_from_slice(&self.bytes[..at]);
        rest.fill(0);
    }
}

/// The 32 bytes of a key.
const KEY: [u8; 32] = [0x0e; 32];

// The 32 bytes of these digits.
fn bytes_32(alloc: Global, digits: &str) -> Result<[u8; 32], Fail> {
    let given = hex::decode(alloc, digits)?;
    let mut bytes = [0; 32];
    for (byte, from) in bytes.iter_mut().zip(given.as_slice()) {
        *byte = *from;
    }
    Ok(bytes)
}

// A key, a text and what AES-256-GCM seals it to.
const SEALED: [[&str; 3]; 3] = [
    [
        "0e0e0e0e0e0e0e0e0e0e0e0e0e0e0e0e0e0e0e0e0e0e0e0e0e0e0e0e0e0e0e0e",
        "3132333435363738",
        "c4cbb7c779a8bbb79e4ccd92822e154eaec477276c446026",
    ],
    [
        "852c312358a8409f5bfa80293e9dd627af417399d345655908c03c80962f71e7",
        "",
        "f3cf076795cb33ce9683638623b2c920",
    ],
    [
        "6191bfc320d5dc2b6eb473ae53702ab90c2bb0cd7f9cef06aad625bee003c4ea",
        "010acd347b98916513731fa5de47f19270df1e925739d0021265a3136c8b33",
        "bca95e6700cd0a98b2f4aebfda26ef91486cdccf3302b801799287fd0f9415d3ffa8622c6101f42d89f971711b9546",
    ],
];

// Whether the text of a row is sealed as it says, and opens with its size and with no other.
fn is_sealed(alloc: Global, row: &[&str; 3]) -> Result<bool, Fail> {
    let key = bytes_32(alloc, row[0])?;
    let text = hex::decode(alloc, row[1])?;
    let sealed = aead_encrypt::<AesGcm256Impl>(alloc, &key, text.as_slice())?;
    let digits = hex::encode(alloc, sealed.as_slice())?;
    let size = text.len();
    let opened = aead_decrypt::<AesGcm256Impl>(alloc, &key, size, sealed.as_slice())?;
    let other = aead_decrypt::<AesGcm256Impl>(alloc, &key, size ^ 1, sealed.as_slice()).err();
    Ok(
        digits.as_str() == row[2]
            && opened.as_slice() == text.as_slice()
            && other == Some(HpkeError::OpenError),
    )
}

#[test]
fn seals_and_opens(rt: HostRuntime) -> Result<(), Fail> {
    for row in &SEALED {
        assert!(rt; is_sealed(rt.alloc(), row)?);
    }
    Ok(())
}

// A salt, a label, input keying material and the 32 bytes.
const DERIVED: [[&str; 4]; 3] = [
    [
        "",
        "",
        "",
        "eb70f01dede9afafa449eee1b1286504e1f62388b3f7dd4f956697b0e828fe18",
    ],
    [
        "",
        "686561646572",
        "b44391c6fdab2a76d882c0ebdea3a3bc",
        "fb5676c571ea7b519f8e7d9bc6ebf290c46b5fc43f6a1a879c751651db416ee0",
    ],
    [
        "9cf43c9a70031e63f5f826bf26b35e29",
        "7061796c6f6164",
        "52da96da28485d92531e8e5acf99d738",
        "42e4336e78fe0ff1358977489dddde2424a620121f5a926229f984ac6d884acc",
    ],
];

// Whether the 32 bytes of a row are derived.
fn is_derived(alloc: Global, row: &[&str; 4]) -> Result<bool, Fail> {
    let salt = hex::decode(alloc, row[0])?;
    let label = hex::decode(alloc, row[1])?;
    let ikm = hex::decode(alloc, row[2])?;
    let okm = hkdf(salt.as_slice(), label.as_slice(), ikm.as_slice());
    Ok(hex::encode(alloc, &okm)?.as_str() == row[3])
}

#[test]
fn derives_keys(rt: HostRuntime) -> Result<(), Fail> {
    for row in &DERIVED {
        assert!(rt; is_derived(rt.alloc(), row)?);
    }
    Ok(())
}

/// What is sealed to a key of the lattice KEM at 768 under AES-256-GCM: the key's seed, the info, the text,
/// the 32 bytes drawn, the SHA-256 of the encapsulated key and the sealed text.
const HYBRID: [&str; 6] = [
    "b9c369f377ca7d5899c35cbaa1eed034a79f29311a25c914cfb53a6b3b69e09228000dbd9f4dac60c1612d69bbf44d01afa79493254299520d932de59aa7111b",
    "1a2c38829fcfbd677eb69d59d45bfa1f",
    "43d2021b41cda98837b3c40a6fd9a485",
    "51eeb585b6900ebeed32495e1f3585b75e45f49317f3ac0763715dd4371442df",
    "e9080c48836fb8f899981997149cd418be3f9f85b257b8415d69923cf69a2afd",
    "d091b7f20356a59b129705046e3266a49bc3b07839c603db3c8cad0d7b5dd04e",
];

// Whether the text of a row is sealed as it says, and opens.
fn is_sealed_to<K: Kem>(alloc: Global, row: &[&str; 6]) -> Result<bool, Fail> {
    let seed = hex::decode(alloc, row[0])?;
    let info = hex::decode(alloc, row[1])?;
    let text = hex::decode(alloc, row[2])?;
    let mut rng = FixedDraw {
        bytes: bytes_32(alloc, row[3])?,
    };
    let sk = K::PrivateKey::from_bytes(alloc, seed.as_slice())?;
    let pk = K::sk_to_pk(alloc, &sk)?;
    let (encapped_key, sealed) = hpke_seal::<AesGcm256, K, FixedDraw>(
        alloc,
        &pk,
        info.as_slice(),
        text.as_slice(),
        &mut rng,
    )?;
    let opened = hpke_open::<AesGcm256, K>(
        alloc,
        &encapped_key,
        &sk,
        info.as_slice(),
        sealed.as_slice(),
    )?;
    let encapped = encapped_key.to_bytes(alloc)?;
    let encapped = hex::encode(alloc, &Sha256::digest(encapped.as_slice()))?;
    let sealed = hex::encode(alloc, sealed.as_slice())?;
    Ok(
        opened.as_slice() == text.as_slice()
            && encapped.as_str() == row[4]
            && sealed.as_str() == row[5],
    )
}

#[test]
fn seals_to_a_key(rt: HostRuntime) -> Result<(), Fail> {
    assert!(rt; is_sealed_to::<LatticeKem<MlKem768, Sha2Hash>>(rt.alloc(), &HYBRID)?);
    Ok(())
}

/// A text of BIP 173 whose part is `a`, without bytes.
const EMPTY_TEXT: &str = "a12uel5l";

/// A recipient that age-keygen wrote.
const RECIPIENT: &str = "age1d7z8fqhmpcw0z5h0rgvaxjkkrshg0qd6drrxul77l3c23l97vysq7de4lj";

// What a decoding with closures comes to: the part's length and the number of bytes, or a word.
fn decoded(alloc: Global, text: &str) -> Result<(usize, usize), &'static str> {
    bech32_decode(
        alloc,
        text,
        |error| {
            if error == Bech32Error::NoMemory {
                "memory"
            } else {
                "text"
            }
        },
        |hrp| {
            if hrp.as_str() == "age" {
                Ok(())
            } else {
                Err("part")
            }
        },
        |hrp, bytes| {
            if bytes.len() == 32 {
                Ok((hrp.as_str().len(), bytes.len()))
            } else {
                Err("bytes")
            }
        },
    )
}

#[test]
fn decodes_texts(rt: HostRuntime) {
    assert!(rt; decoded(rt.alloc(), RECIPIENT) == Ok((3, 32)));
    assert!(rt; decoded(rt.alloc(), EMPTY_TEXT) == Err("part"));
    assert!(rt; decoded(rt.alloc(), "A1G7SGD8") == Err("text"));
}

// Whether a part and a key are written to a sink as the text that is given.
fn is_written(alloc: Global, hrp: &Hrp, text: &str) -> Result<bool, Fail> {
    let mut sink = MemSink::new(alloc, Vec::new(alloc));
    bech32_encode_to_fmt(alloc, &mut sink, hrp, &KEY)?;
    Ok(sink.bytes() == text.as_bytes())
}

// Whether a text is read as the part `12345678` and the key.
fn is_key(alloc: Global, text: &str) -> Result<bool, bool> {
    bech32_decode(
        alloc,
        text,
        |_| false,
        |_| Ok(()),
        |part, bytes| Ok(part.as_str() == "12345678" && bytes == KEY.as_slice()),
    )
}

#[test]
fn writes_texts(rt: HostRuntime) -> Result<(), Fail> {
    let hrp = Hrp::parse("12345678")?;
    let text = bech32_encode(rt.alloc(), &hrp, &KEY)?;
    assert!(rt; is_written(rt.alloc(), &hrp, text.as_str())?);
    assert!(rt; is_key(rt.alloc(), text.as_str()) == Ok(true));
    Ok(())
}

#[test]
fn makes_file_keys(rt: HostRuntime) -> Result<(), Fail> {
    let mut want = [0; FILE_KEY_BYTES];
    want[0] = 1;
    let key = FileKey::init_with_mut(rt.alloc(), |bytes| bytes[0] = 1)?;
    assert!(rt; *key.expose_secret() == want);
    let key = FileKey::new(Box::new(rt.alloc(), want)?);
    assert!(rt; *key.expose_secret() == want);
    Ok(())
}

#[test]
fn tries_file_keys(rt: HostRuntime) -> Result<(), Fail> {
    let made = FileKey::try_init_with_mut(rt.alloc(), |_| Err(3))?;
    assert!(rt; made.err() == Some(3));
    let made = FileKey::try_init_with_mut(rt.alloc(), |bytes| {
        bytes[15] = 7;
        Ok::<(), u8>(())
    })?;
    match made {
        Ok(key) => assert_eq!(rt; key.expose_secret()[15], 7),
        Err(_) => assert!(rt; false),
    }
    Ok(())
}
