//! Keys, encapsulations and rejections of other implementations of FIPS 203: of OpenSSL 4.0 at 768 and
//! 1024, and at 512 of a reference that agrees with it at the other sets. Bytes are in hex, keys and
//! ciphertexts by their SHA-256.

use hex::FromHex;
use ml_kem::{
    Ciphertext, DecapsulationKey, EncapsulationKey, MlKem512, MlKem768, MlKem1024, ParameterSet,
};
use sha2::{Digest, Sha256};
use sha3_family::Sha3Hash;
use std::alloc::Global;
use std::test::Fail;

/// A seed, the key that it gives, what a message comes to under that key, and the secret where a bit of
/// the ciphertext is another: at this place, the one of this value.
struct Row {
    seed: &'static str,
    key: &'static str,
    message: &'static str,
    ciphertext: &'static str,
    shared: &'static str,
    changed: (usize, u8),
    rejected: &'static str,
}

const ROWS_512: [Row; 3] = [
    Row {
        seed: "00000000000000000000000000000000000000000000000000000000000000000000000000000000000000000000000000000000000000000000000000000000",
        key: "52b46f0597ac5cb10c6281ad5731f18d599feaa92ce24d897d4084195b27e448",
        message: "fd133de0adcdad6b3622fbc18ccb8b1145e2f691ca22b51165965e07a27ab0b8",
        ciphertext: "5c2868bf587f73b275be05a6a11f7ab95330861dda298281e5fdeea07feb91c5",
        shared: "d0f4c3b56f955552e84b9f6a5cdca687858202ae375f85ca164e348690f2bfde",
        changed: (0, 1),
        rejected: "c2379c97030b7c53fb24937bda11cbec2715b37caa5f9d6818fb5f9f2bd7917d",
    },
    Row {
        seed: "52d2ed066516c2d627206874a5701c2f18c39f8830952a3441026b10892947eba74bce90300e72711b948b3e921e3695319c2d6e2cd846757a041e24934cec17",
        key: "748da40bc9504ffb438f948c270e748a7f34c81a3b81b8fa915c12a62531eb08",
        message: "91266104dc3d854979e4d9ce5de84b74f1aa6a9dfd8fd58476250aa8a1183940",
        ciphertext: "dbfcb9392f327a02530768af5b3db367d895f5310ce57fde8d0ac840fe2d53d9",
        shared: "1ab8007493784c1f33defa07bc5670af1ab92e236d5e4ffa3c7d6955351df2e8",
        changed: (311, 2),
        rejected: "aea580e55a0cdd6c4a98374fc956b19be1fec99f38f44500b05f514ea459becd",
    },
    Row {
        seed: "74d9d677a547ea8d1d26b5be8ea6dbb2879f547cd1b0316b19c36ec2972a71ccf5ed461e450fb0dd6047be21ebcfa34f5b0310db638763e974b9b81c3942c11e",
        key: "3b35af97ff25840d14f6cd427a370c719aec10ed6151bbd02a4f5d4c0e671567",
        message: "cf971f01462e63912678881f5354c26378fbf4b00afd4a74da01ee24daba72da",
        ciphertext: "ff6861a58fb239dcb3cc899b5b2c4469d2b86db558d24b943a0475d712fb084b",
        shared: "03e7ad1e2470ea7abffc61661e1520c0e6f052cc45ec47b5de91951987285930",
        changed: (622, 4),
        rejected: "6cf88906cc0be34d7a7fdba56425d86c4390ccb49aac71a3dab0f478eb1e792d",
    },
];

const ROWS_768: [Row; 3] = [
    Row {
        seed: "00000000000000000000000000000000000000000000000000000000000000000000000000000000000000000000000000000000000000000000000000000000",
        key: "f95c185fe5b2335d2fc938dd889c6425944acd74376b6952bf1130f720f6ba99",
        message: "3c06aba5131622ce3c2820afc3cc567e26d689507001e6bf748cd0ba289bd554",
        ciphertext: "49fca0353ce486f774b83df8dcf349173a00b27270e7f542b5d14a5606396269",
        shared: "d7c39df0a79a13f43f4aa952cdd2f8ff811ecf9e0dac2c87a665201f1d6d0a09",
        changed: (0, 1),
        rejected: "ee5fceedd84fab3a06b9bcee9f22a76b6fe73621f238cda7bd079822055437a8",
    },
    Row {
        seed: "f8d6670672973d515abfff903f496e4aa5d2af9a05748ba0a49ae1a2ec8692ea063ee02186c8ccd2da3a10efa8adcf12b03d2814682e04a604b299c5cb55cd7d",
        key: "194f95abc0ccc7c71e6e9b33fe0a0153e0ad590aefa4665428eb4f0b3c136b8a",
        message: "ae23e2e2a4587bc22cfff76185845a4a16b658fcfe536cc62eeeb0ba6ce83c6a",
        ciphertext: "8d3bf643aef5a73d83fbf54321a2831ccadc336a01cb94b6794dd518275201b7",
        shared: "d7f7e5a9f9c4fb706f70714110023c81ca4e3fe129ff2134cc698759376bdcdc",
        changed: (311, 2),
        rejected: "906d671406ca5eee5424fa881822586d2e72d622d52b5aa2ff509b9be47fa4b3",
    },
    Row {
        seed: "153f5dd3441354fd7819d0acbc2b924668a9c66592fc57bb81c46f4a4f18f7c6789faf95eee2a0fb014b8b30384e392d322a09c90de30f594ecb69400a5ab719",
        key: "356bc36d035d3f84363bca22eacb89981e3d86c0bb134316f9585af815904722",
        message: "032f8b3a45e0ab57f24af9de36dc3516af93564f2523611e7cf42f3aa62951e6",
        ciphertext: "665d6e4de6b7b3667161c98f40823923ce43201f6e188e3964dcb737fc511e17",
        shared: "d2bf7369efd329f28ed964d71386076b9c6316adab4196f3fbf8df93eccd2f55",
        changed: (622, 4),
        rejected: "05761e2567f1f57a8e9ec5d4f85d0949e46a940c782438931e022415291107db",
    },
];

const ROWS_1024: [Row; 3] = [
    Row {
        seed: "00000000000000000000000000000000000000000000000000000000000000000000000000000000000000000000000000000000000000000000000000000000",
        key: "29e3692e1c08422f548ca7e683e89015482c09a5442f8d2ead471c3931a5ee76",
        message: "e69fd23fd24a2be84009862a7051aa2b8e1d2d0981c779f5e484c01f31d09e8a",
        ciphertext: "0760394c0a6bd01c7daad8efd63e4afc6c2a494b982161cf61bea86d408aae52",
        shared: "477e0325b6830097ec895eabf168f8229d8a9f5c52c41e1a41496c2bceaeefb6",
        changed: (0, 1),
        rejected: "8c04beef53dee2064d4abb1ed71c4a11bf91743a832fef2d2dab7bfb9c2d5454",
    },
    Row {
        seed: "f432fd00a9319bb97f396330ae0c1eceba7a13430a3a80b940bd6a0b486c081d99424fb24b129d54093a4cdbf3133104413eb3f12ac88c12b8d4572e70a76079",
        key: "0d5eb8848acbf62e2190ce71a2d9d26e429ff1474b6da452089fab401a7b6acc",
        message: "8f9cf1517c2e6f8acc4df57ca8a20c5e66fd2e162073ed38ae00f4bae2537fd0",
        ciphertext: "dedcb045264174aa4b061c9d10910b2391460905ab6a42696859482d6ee1ab9e",
        shared: "e9c1b6b2d21d65d185139bc59f83eedfb1c1a7ad55068484f0c099f1d8dd1390",
        changed: (311, 2),
        rejected: "6b060e10354cf62f3e87cce5827d3f9e862a7250b8254bd00e604274afbce56b",
    },
    Row {
        seed: "6a2ff47af72213078edeec8681043e0a09a14d35ca7fe056b6a08234230cfd4dc77db7378c553dc8be60baf212ec8e1690f2200237dcda54855dbae550362496",
        key: "a43ce5d39dd04a2751c823ce7912b129855f4cfa41219574f60489296b64b6d3",
        message: "8b0e4f2b2b75d7b7a383dbbea7aa5feb56788242a6569b1e92965eb66a0001fe",
        ciphertext: "f941a4e7af6ec1e70a59e9e0870238ac20353c5780f47d751fa92843f788f84e",
        shared: "93837b88b360258d46c0219984e4465ed171607032086d466039a5164c83ef17",
        changed: (622, 4),
        rejected: "b19769021b7ed39db4e5a2b5359add1d23aa48506c445283bbe87c69e16a2753",
    },
];

// Whether bytes have a SHA-256.
fn has_digest(bytes: &[u8], digest: &str) -> Result<bool, Fail> {
    let digest = <[u8; 32] as FromHex>::from_hex(digest)?;
    Ok(Sha256::digest(bytes) == digest)
}

// The key of a row's seed.
fn key_of<P: ParameterSet>(
    alloc: Global,
    row: &Row,
) -> Result<DecapsulationKey<P, Sha3Hash>, Fail> {
    let seed = <[u8; 64] as FromHex>::from_hex(row.seed)?;
    Ok(DecapsulationKey::from_seed(alloc, &seed)?)
}

// Whether a row's seed gives its key.
fn gives_the_key<P: ParameterSet>(alloc: Global, row: &Row) -> Result<bool, Fail> {
    let key = key_of::<P>(alloc, row)?;
    has_digest(key.encapsulation_key().to_bytes()?.as_slice(), row.key)
}

// Whether a key that is read from its bytes makes a row's ciphertext and secret of its message.
fn encapsulates<P: ParameterSet>(alloc: Global, row: &Row) -> Result<bool, Fail> {
    let bytes = key_of::<P>(alloc, row)?.encapsulation_key().to_bytes()?;
    let key = EncapsulationKey::<P, Sha3Hash>::new(alloc, bytes.as_slice())?;
    let message = <[u8; 32] as FromHex>::from_hex(row.message)?;
    let (ciphertext, shared) = key.encapsulate_deterministic(&message)?;
    let is_made = has_digest(ciphertext.as_slice(), row.ciphertext)?;
    Ok(is_made && shared == <[u8; 32] as FromHex>::from_hex(row.shared)?)
}

// A ciphertext with another bit.
fn changed<P: ParameterSet>(
    alloc: Global,
    ciphertext: &Ciphertext<P>,
    (place, bit): (usize, u8),
) -> Result<Ciphertext<P>, Fail> {
    let mut bytes = ciphertext.as_slice().to_vec(alloc)?;
    if let Some(byte) = bytes.get_mut(place) {
        *byte ^= bit;
    }
    Ok(Ciphertext::from_slice(alloc, bytes.as_slice())?)
}

// Whether a row's key answers its ciphertext by its secret, and the changed one by the other.
fn decapsulates<P: ParameterSet>(alloc: Global, row: &Row) -> Result<bool, Fail> {
    let key = key_of::<P>(alloc, row)?;
    let message = <[u8; 32] as FromHex>::from_hex(row.message)?;
    let (ciphertext, _sent) = key.encapsulation_key().encapsulate_deterministic(&message)?;
    let shared = key.decapsulate(&ciphertext)?;
    let rejected = key.decapsulate(&changed(alloc, &ciphertext, row.changed)?)?;
    Ok(
        shared == <[u8; 32] as FromHex>::from_hex(row.shared)?
            && rejected == <[u8; 32] as FromHex>::from_hex(row.rejected)?,
    )
}

// Whether the rows of a set hold.
fn hold<P: ParameterSet>(alloc: Global, rows: &[Row]) -> Result<bool, Fail> {
    for row in rows {
        let holds = gives_the_key::<P>(alloc, row)?
            && encapsulates::<P>(alloc, row)?
            && decapsulates::<P>(alloc, row)?;
        if !holds {
            return Ok(false);
        }
    }
    Ok(true)
}

#[test]
fn keys_at_512(rt: HostRuntime) -> Result<(), Fail> {
    assert!(rt; hold::<MlKem512>(rt.alloc(), &ROWS_512)?);
    Ok(())
}

#[test]
fn keys_at_768(rt: HostRuntime) -> Result<(), Fail> {
    assert!(rt; hold::<MlKem768>(rt.alloc(), &ROWS_768)?);
    Ok(())
}

#[test]
fn keys_at_1024(rt: HostRuntime) -> Result<(), Fail> {
    assert!(rt; hold::<MlKem1024>(rt.alloc(), &ROWS_1024)?);
    Ok(())
}
