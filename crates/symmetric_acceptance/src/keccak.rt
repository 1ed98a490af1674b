//! Answers from outside: messages with their digests and outputs, by other implementations of the standard.
//! Bytes are in hex.

use sha2::Sha256;
use sha3::{Digest, ExtendableOutput, Sha3_256, Sha3_512, Shake128, Shake256, XofReader, laws};
use std::alloc::Global;
use std::convert::AsSlice;
use std::test::Fail;

// A message, its digests, and the SHA-256 of 400 bytes of its outputs.
struct Case {
    message: &'static str,
    sha3_256: &'static str,
    sha3_512: &'static str,
    shake128: &'static str,
    shake256: &'static str,
}

// Lengths about those of a block.
fn cases() -> &'static [Case] {
    &[
        Case {
            message: "",
            sha3_256: "a7ffc6f8bf1ed76651c14756a061d662f580ff4de43b49fa82d80a4b80f8434a",
            sha3_512: "a69f73cca23a9ac5c8b567dc185a756e97c982164fe25859e0d1dcc1475c80a615b2123af1f5f94c11e3e9402c3ac558f500199d95b6d3e301758586281dcd26",
            shake128: "fc5f94401d3745ca41d8c8bc18afb9a8579a49fac1bc2cc449256c79ee4ee884",
            shake256: "015ee5a941ab013a0f1abb9b1eceaad22aac013ae162a90dda87acd72683487b",
        },
        Case {
            message: "905ff38a095125423a0a86ff7e9ef378bf6979bde322141f8352e9028a90fc8acbd4617a0ea1add49685f151f795514abf5c26a9cb191070d6bf2c8f4f41bcf4fa4326de803a7e",
            sha3_256: "ac53743ce3ce617e1538e0e2ac78d9e41f3ff9de829dbdd91168476811d06365",
            sha3_512: "cfd4541ca670b1dff8f46f966144c9d280e63cb936001126cfdfbb65df89ad67829f853b83dd5c307eef2a8c16e274bf8a70881c5176d9ee848f4961ade95466",
            shake128: "524334022c7ea935503526ffd5cf18fda0bdd4918cdbefc126aae34b22499e24",
            shake256: "a0089b2bf171349af81e8bd351eebe35142e8bfe277ef3b1a5117999390fea54",
        },
        Case {
            message: "c5acb9044320f273428509ce2ca06569988a0fe2e6ab3e11f6af503e1e759c535a54ada2a37600b126bd7acf1e6d7ed3187cc95af3b9ca7f3041ebc1acb869af96041f23aca09f02",
            sha3_256: "a34ba8f2a7c4c001f5eede5397b66bceb88318d079f88158f39f53f81a064370",
            sha3_512: "7bc4b55d81fc5434bf88a12822f30ce23bd6c2e05e8fc959718392cb059cbcd51b63dd7a7785abb9645a82fd3e6381bc567bd9a2e2ca2f1d7b9f6f817440cb4a",
            shake128: "c21d3c8495a0de8a63e6ae57d8420342d21d30907a8560391c665447f65cdb88",
            shake256: "047e305fdeadece9cd3d5b004a1d2ec16b529b3b3b7d1c637c6fccd4b7fcb02a",
        },
        Case {
            message: "5edb0e819a9130f39e01ac89cd56d750606f1bfa2439e25c4d44b64161e29b9b427716832fd9ac8d6b99e0f1039179fdd5257c1d3248dfe1355e6a25427827124e2e10f30a944e5a66c8b93987dd70a2fa5b16f2c7554e6fd00c0e54c9065dd585624d83808a00ecb974a413b877cc0e48fe5a4c028c36e1e30e9378bf01faaf047157c2c12056",
            sha3_256: "79d797090518eb76bf606f2c8adef1dfc62a699ee4d88cbfeb3b4a2cc41d436d",
            sha3_512: "494d44f729a0988f1cfa50aaa66259639c02a7712b1531a7fe92b0804d019eaccf5bdbde0a60e1f31a676804d40d4b106c76fffdc70799547865c8bb42d6172c",
            shake128: "ff0c1cf50734bf64ec7aa12718f8855a5c948fd7743ac6b271540a9ebe096690",
            shake256: "9190ce18a3e89f3b0d0fec9dd5a7781e9864730c9e49e9d0b406660ad27e190e",
        },
        Case {
            message: "ad38f6b7afecac974e04f63b060565ade8c18a5ae037633b596595af81a518471dd9b93d54c3cfc14c9e1049de03b3e515a736c885e046600d6a7afd1ad048242b7bda99dde41fe4ec7446534a5c72ee13ae630b24e9ef91e6096afa1602d1a1c04a0476e9fb7c779ce9edf8d7a5a25ba6b6ff2cf180cd70aa16697ec1e30c811c82b3dcd196cd9d",
            sha3_256: "dcbde23c61b7b14ff8a492b3b0666d424ce50618df36d573fd5524c60ed4bdd7",
            sha3_512: "ae0dcced8a52bacf9bc3288b8d2fa2df59ac84569f13b72bb80003a738cccdf1930d6abe3e898c18d24f8a12aa51f6fa0f0778f59eac261cef60126c2626bd63",
            shake128: "ff7fd3414d837e37d79d60c05c6c7f4fe6cb74dd03156fef6a60f661e2ae5e13",
            shake256: "ddc11c9dd78508f6d1b402ec831781c72b8258424a09fad75f000c4bf5bab619",
        },
        Case {
            message: "6abbf728e6409c3adf9dd5107cf1b1de1eeffcd88892c53f8d4f81e4ae068cc56b2e167622e1308f7c017d0c1e79200cbb11240cf740b95d675af2b90ccb003bbce1876f420e51c6d9cfb823484762c56f470c5c56245aa8796822b4bdf6b917466812854251398984d7657cb79d1488df2672a98ae76dd42000ea23e998e14640c1bf57eec3971fb032554875a1677a929aea96fd14d1ac6ebc54667026ea77636108ddf8aa5044",
            sha3_256: "8dbd623435a55dcaf35c71bdc8aa54fe30eb9d7d6864409f21e9c862ef72221d",
            sha3_512: "30afe4105246f067d8c25804bb3b493ba6cad6785fae60d418a06695f1c9b94e90be5d64badf860e80bdf3a262f33070413e2bec6796b813e8a1013600eb31c8",
            shake128: "f90f3932f384d5fbc77e868f9280310bb1fb32bf658703e0523e84a7aba78136",
            shake256: "56657b766831175552db94c3e2e4ed24a466aa16800b9a372cb639171427923d",
        },
    ]
}

// The digest of a message that comes in two pieces, between which a copy goes on with another message.
fn digest<D: Digest + Clone>(alloc: Global, message: &[u8]) -> Result<String, Fail>
where
    D::Output: AsSlice<u8> + Drop,
{
    let (front, back) = message.split_at(message.len() / 3);
    let mut hasher = D::new();
    hasher.update(front);
    hasher.clone()?.update(b"another message");
    hasher.update(back);
    Ok(hex::encode(alloc, hasher.finalize())?)
}

// The SHA-256 of the first 400 bytes of an output that is read in pieces.
fn output<X: ExtendableOutput>(alloc: Global, message: &[u8]) -> Result<String, Fail>
where
    X::Reader: XofReader,
{
    let (front, back) = message.split_at(message.len() / 3);
    let mut function = X::new();
    function.update(front);
    function.update(back);
    let mut reader = function.finalize_xof();
    let mut out = [0; 400];
    let (first, rest) = out.split_at_mut(1);
    let (second, third) = rest.split_at_mut(335);
    reader.read(first);
    reader.read(second);
    reader.read(third);
    Ok(hex::encode(alloc, &Sha256::digest(&out))?)
}

// Whether a case has its digests.
fn has_digests(alloc: Global, case: &Case) -> Result<bool, Fail> {
    let message = hex::decode(alloc, case.message)?;
    let short = digest::<Sha3_256>(alloc, message.as_slice())?;
    let long = digest::<Sha3_512>(alloc, message.as_slice())?;
    Ok(short.as_str() == case.sha3_256 && long.as_str() == case.sha3_512)
}

#[test]
fn digests(rt: HostRuntime) -> Result<(), Fail> {
    for case in cases() {
        assert!(rt; has_digests(rt.alloc(), case)?, "{}", case.message);
    }
    Ok(())
}

// Whether a case has its outputs.
fn has_outputs(alloc: Global, case: &Case) -> Result<bool, Fail> {
    let message = hex::decode(alloc, case.message)?;
    let of_128 = output::<Shake128>(alloc, message.as_slice())?;
    let of_256 = output::<Shake256>(alloc, message.as_slice())?;
    Ok(of_128.as_str() == case.shake128 && of_256.as_str() == case.shake256)
}

#[test]
fn outputs(rt: HostRuntime) -> Result<(), Fail> {
    for case in cases() {
        assert!(rt; has_outputs(rt.alloc(), case)?, "{}", case.message);
    }
    Ok(())
}

// How hash functions of an empty message are shown.
fn shown(alloc: Global) -> Result<String, Fail> {
    let (short, long) = (Sha3_256::default(), Sha3_512::default().clone()?);
    Ok(format!(in alloc; "{short:?} {long:?}")?)
}

// The first two bytes of the output of the empty message.
fn output_of_nothing<X: ExtendableOutput + Default>() -> [u8; 2]
where
    X::Reader: XofReader,
{
    let mut out = [0; 2];
    X::default().finalize_xof().read(&mut out);
    out
}

#[test]
fn other_calls(rt: HostRuntime) -> Result<(), Fail> {
    laws::offsets_by_rule();
    laws::round_constants_by_rule();
    laws::lengths();
    laws::bytes();
    laws::outputs_are_fronts();
    laws::worked_permutation();
    assert!(rt; Sha3_256::output_size() == 32 && Sha3_512::output_size() == 64);
    let empty = shown(rt.alloc())?;
    assert!(rt;
        empty.as_str() == "Sha3_256 { ... } Sha3_512 { ... }",
        "{empty}"
    );
    assert!(rt; output_of_nothing::<Shake128>() == [0x7f, 0x9c]);
    assert!(rt; output_of_nothing::<Shake256>() == [0x46, 0xb9]);
    Ok(())
}
