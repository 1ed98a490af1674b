//! Each law is called once; noise and decryption by an independent model, at each set.

mod model;
mod received;
mod rows;

ghost use Rattle.std.specs.Prelude.{◌<◌};

use crate::noise::model::{DEGREE, Q, Seen, bit, encrypt_and_decrypt};
use crate::noise::received::received_secret;
use crate::noise::rows::{
    Decapsulation, End, Noise, decapsulations_512, decapsulations_768, decapsulations_1024, ends,
    one_byte_rows, sha_2_rows,
};
use decryption_noise::laws;
use hash_families::OneByteHash;
use hex::FromHex;
use kem_hash::{KemHash, Sha2Hash};
use ml_kem::{
    B32, DecapsulationKey, KemError, MlKem512, MlKem768, MlKem1024, ParameterSet, Seed, compress,
    decompress,
};
use sha2::{Digest, Sha256};
use std::alloc::Global;
use std::test::Fail;

#[test]
fn laws_are_called(_rt: HostRuntime) {
    laws::worked_values();
    laws::centred_numbers();
    laws::ciphertexts_are_rounded();
    laws::noise_stands_beside_the_message();
    laws::intervals();
    laws::decrypts_exactly_inside();
    laws::decapsulates_inside();
    laws::decapsulate_answers_the_shared_key();
}

// The bit that a number is rounded to.
fn read(x: u32) -> u32 {
    compress(1, x % Q)
}

// A bit, a noise modulo q that stands beside it, and the bit that is read.
const ENDS_OF_THE_INTERVALS: &[(u32, u32, u32)] = &[
    (0, 832, 0),
    (0, 833, 1),
    (0, Q - 832, 0),
    (0, Q - 833, 1),
    (1, 831, 1),
    (1, 832, 0),
    (1, Q - 832, 1),
    (1, Q - 833, 0),
];

#[test]
fn ends_of_the_intervals(rt: HostRuntime) {
    for &(sent, noise, found) in ENDS_OF_THE_INTERVALS {
        assert!(rt; read(decompress(1, sent % 2) + noise % Q) == found);
    }
}

// Whether a noise modulo q is inside for a bit.
fn is_inside(bit: u32, noise: u32) -> bool {
    let most = if bit == 0 { 832 } else { 831 };
    noise <= most || noise >= Q - 832
}

// How many bits of a message are decrypted wrongly, or none where one is that should not, or the other way
// round.
fn wrong_bits(seen: &Seen, m: &B32) -> Option<usize> {
    let mut wrong = 0;
    for i in 0..DEGREE {
        let sent = bit(m, i);
        let is_right = read(seen.masked[i]) == sent;
        if is_right != is_inside(sent, seen.noise[i]) {
            return None;
        }
        if !is_right {
            wrong += 1;
        }
    }
    Some(wrong)
}

// The noise as the rows have it.
fn digest(noise: &[u32; DEGREE]) -> B32 {
    let mut hasher = Sha256::new();
    for x in noise {
        hasher.update(&[(x / 256 % 256) as u8, (x % 256) as u8]);
    }
    hasher.finalize()
}

// The bytes of these digits.
fn bytes<const N: usize>(digits: &str) -> Result<[u8; N], Fail> {
    Ok(<[u8; N] as FromHex>::from_hex(digits)?)
}

// Whether a noise is the row's, and so many bits are decrypted wrongly.
fn is_row<H: KemHash>(alloc: Global, row: &Noise) -> Result<bool, Fail> {
    let seed = bytes::<64>(row.seed)?;
    let m = bytes::<32>(row.m)?;
    let r = bytes::<32>(row.r)?;
    let found = encrypt_and_decrypt::<H>(alloc, row.set, &seed, &m, &r)?;
    let wanted = bytes::<32>(row.digest)?;
    Ok(digest(&found.noise) == wanted && wrong_bits(&found, &m) == Some(row.wrong))
}

// Whether each row of a family holds.
fn are_rows<H: KemHash>(alloc: Global, rows: &[Noise]) -> Result<bool, Fail> {
    for row in rows {
        if !is_row::<H>(alloc, row)? {
            return Ok(false);
        }
    }
    Ok(true)
}

#[test]
fn noise_is_that_of_the_model(rt: HostRuntime) -> Result<(), Fail> {
    assert!(rt; are_rows::<Sha2Hash>(rt.alloc(), sha_2_rows())?);
    assert!(rt; are_rows::<OneByteHash>(rt.alloc(), one_byte_rows())?);
    Ok(())
}

// Whether the noise at the row's place is the row's, and the bit there is decrypted as it says.
fn is_end<H: KemHash>(alloc: Global, row: &End) -> Result<bool, Fail> {
    let seed = bytes::<64>(row.seed)?;
    let m = bytes::<32>(row.m)?;
    let r = bytes::<32>(row.r)?;
    let found = encrypt_and_decrypt::<H>(alloc, row.set, &seed, &m, &r)?;
    let place = row.place % DEGREE;
    let is_right = read(found.masked[place]) == bit(&m, place);
    Ok(found.noise[place] == row.noise && is_right == row.right && wrong_bits(&found, &m).is_some())
}

#[test]
fn noise_meets_the_ends(rt: HostRuntime) -> Result<(), Fail> {
    for row in ends() {
        assert!(rt; is_end::<OneByteHash>(rt.alloc(), row)?);
    }
    Ok(())
}

// What is seen of an encapsulation and its decapsulation.
#[derive(Drop)]
struct Exchange {
    digest: B32,
    shared: B32,
    answer: B32,
}

// The encapsulation of a message under the key of a seed, and its decapsulation.
fn exchanged<P: ParameterSet, H: KemHash>(
    alloc: Global,
    seed: &Seed,
    m: &B32,
) -> Result<Exchange, KemError> {
    let key = DecapsulationKey::<P, H>::from_seed(alloc, seed)?;
    let (c, shared) = key.encapsulation_key().encapsulate_deterministic(m)?;
    let answer = received_secret::<P, H>(alloc, seed, &c)?;
    Ok(Exchange {
        digest: Sha256::digest(c.as_slice()),
        shared,
        answer,
    })
}

// Whether an encapsulation and its decapsulation are the row's.
fn is_decapsulation<P: ParameterSet, H: KemHash>(
    alloc: Global,
    row: &Decapsulation,
) -> Result<bool, Fail> {
    let seed = bytes::<64>(row.seed)?;
    let m = bytes::<32>(row.m)?;
    let made = exchanged::<P, H>(alloc, &seed, &m)?;
    Ok(
        made.digest == bytes::<32>(row.digest)?
            && made.shared == bytes::<32>(row.shared)?
            && made.answer == bytes::<32>(row.answer)?,
    )
}

// Whether each row of a parameter set holds.
fn are_decapsulations<P: ParameterSet>(
    alloc: Global,
    rows: &[Decapsulation],
) -> Result<bool, Fail> {
    for row in rows {
        if !is_decapsulation::<P, OneByteHash>(alloc, row)? {
            return Ok(false);
        }
    }
    Ok(true)
}

#[test]
fn decapsulations_have_their_answers(rt: HostRuntime) -> Result<(), Fail> {
    assert!(rt; are_decapsulations::<MlKem512>(rt.alloc(), decapsulations_512())?);
    assert!(rt; are_decapsulations::<MlKem768>(rt.alloc(), decapsulations_768())?);
    assert!(rt; are_decapsulations::<MlKem1024>(rt.alloc(), decapsulations_1024())?);
    Ok(())
}
