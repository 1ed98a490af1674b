//! The cases of the longer hash functions: HMAC from RFC 4231, and keys about the length of a block
//! and expansions of an independent model. RFC 5869 has no cases for them.

use super::{Code, Output, has_codes, has_outputs, is_longest};
use hkdf_core::laws::{most_output_blocks, sizes_of_sha2};
use hkdf_core::{HashSha256, HashSha384, HashSha512, HkdfHash, MAX_OUTPUT_BLOCKS};
use std::test::Fail;

// Codes by SHA-384.
fn codes_by_sha384() -> &'static [Code] {
    &[
        (
            "RFC 4231, case 1",
            "0b0b0b0b0b0b0b0b0b0b0b0b0b0b0b0b0b0b0b0b",
            "4869205468657265",
            "afd03944d84895626b0825f4ab46907f15f9dadbe4101ec682aa034c7cebc59cfaea9ea9076ede7f4af152e8b2fa9cb6",
        ),
        (
            "RFC 4231, case 2",
            "4a656665",
            "7768617420646f2079612077616e7420666f72206e6f7468696e673f",
            "af45d2e376484031617f78d2b58a6b1b9c7ef464f5a01b47e42ec3736322445e8e2240ca5e69e2c78b3239ecfab21649",
        ),
        (
            "RFC 4231, case 6",
            "aaaaaaaaaaaaaaaaaaaaaaaaaaaaaaaaaaaaaaaaaaaaaaaaaaaaaaaaaaaaaaaaaaaaaaaaaaaaaaaaaaaaaaaaaaaaaaaaaaaaaaaaaaaaaaaaaaaaaaaaaaaaaaaaaaaaaaaaaaaaaaaaaaaaaaaaaaaaaaaaaaaaaaaaaaaaaaaaaaaaaaaaaaaaaaaaaaaaaaaaaaaaaaaaaaaaaaaaaaaaaaaaaaaaaaaaaaaaaaaaaaaaaaaaaaaaaaaaaaaaaa",
            "54657374205573696e67204c6172676572205468616e20426c6f636b2d53697a65204b6579202d2048617368204b6579204669727374",
            "4ece084485813e9088d2c63a041bc5b44f9ef1012a2b588f3cd11f05033ac4c60c2ef6ab4030fe8296248df163f44952",
        ),
        (
            "a key of 128 bytes",
            "5da54c12281e0c16621a01432b6f3ec2ece4f430756725197ab390edea3f1e09853306f716a3515cfcbb1f0e52957ee472188a4cb4b0acc34627e77ac0100333a45aa6e948260dfa5c6d28fb25ab014ae4e2e2f8413cf4ff767084a61762ac2f632f06d68b6ee9c54d779dc3d6a7afb8191ca6d388deeeb234c2dfa6c8d68eba",
            "56b56ab2f57866c739480cc89bbd2d8511bb1ee8fbe471",
            "c6d154515ad62a9383e3b87a987dac2852e4b94ab0d128dd424b39f51cf4796b264868871bf814f8ac0c2ffd17cd09ae",
        ),
        (
            "a key of 129 bytes",
            "f4828afe469b3aa668791e7bad027ed7deec135d35b0564a3458f68bf3f0092d3aff79b8e9f19ba7e61c095752a5f8dbdf8a32a1a0583dbf71bc1c1394c867b810afa8c02095d1398206a1b9ba0da949009f09d074ac7b1dd32996cd94a9955df4dd115627e3bb463f8b0c09bd51bcb55702c61aecb335b51afde265bc3502c3a3",
            "a83c639e9b36fef877402647890d7cb6da8d4d612e890c689e4d128321a7",
            "91424ffc37c9b4b8e70addd6d48c9f7204a8b3dcc06588ddf152c2b4d4ab65cd2ec88167de199163bef75899fa98fc08",
        ),
    ]
}

#[test]
fn hmac_by_sha384(rt: HostRuntime) -> Result<(), Fail> {
    has_codes::<HashSha384>(&rt, rt.alloc(), codes_by_sha384())
}

// Outputs by SHA-384.
fn outputs_by_sha384() -> &'static [Output] {
    &[
        ("45", "b615f3", "7fbf1a32be", 1, "6a"),
        (
            "34e2836b5476e9fa041a6a68f4801ede4633f762508916601ecd0e57f714ed7928f4d7880041a478153e36fe70696d27c3",
            "5002eaac3beb2679f968caa5d1ab5636fb7470a496e80469c416e2c2a8331a36b28b178c69b59b7b2332a3e6819d9cad5d64c2563f31e0b9bb0cd35ec29875ae963a34",
            "88",
            49,
            "d275a81ddcd765cb561203d5b84198fa11fcd81e6dac13aeaf4c16aa0352538a748963ce2b8bf5b2eb7dbe779dc3275bbd",
        ),
        (
            "0a2a25ea2f95c3c7b139721af6d09ea653ab618b0e10c32e30757164eb7f010120914fc0904aa70fc34c40009bdaf871c7cde0b0d8612f28ac34f0c6",
            "bb49eebb66385c7e9be5b0479a5be2e891f3962b5fdc8c4369f5ee6560f9ad0b570acbb26c2be768",
            "68690b2c3d1765af3071510bcbf5452f14ea5943b8cb660d",
            200,
            "7391bf5d9d6d05b8e8633e71ce12b34d0a07f0b475392f6906ecfd9b49d408590fd7c1843432036c52bd854396b5621d9b93794e6210dc56467cc99c51a9e1692ccaa57604b402d05e0a1c65aee12c9080a9dd0ae21d176d8eb2ac8e0549ec2f88552a4ab4448c1b9e29c69f41c0b2735fbc35739dec763dd98aa8d4f2d93dc7dc7a2296d29452f14b238cecd6b250396c05bcd9f8eedd256904da8495d16513bf68d4a713e1b3386b84c374097f80af105c6c2f42138f6516d777a23f8046a60cc8783943e2ac3b",
        ),
    ]
}

#[test]
fn hkdf_by_sha384(rt: HostRuntime) -> Result<(), Fail> {
    has_outputs::<HashSha384>(&rt, rt.alloc(), outputs_by_sha384())
}

// The longest output by its SHA-256, and one byte more.
#[test]
fn the_longest_output_by_sha384(rt: HostRuntime) -> Result<(), Fail> {
    assert!(rt; MAX_OUTPUT_BLOCKS * HashSha384::DIGEST_SIZE == 12240);
    assert!(rt;
        is_longest::<HashSha384>(
            rt.alloc(),
            "e5b5ac5b912d05fe4d1515999b2500432a6a3361b1027691fd708cff354f6aa1f43b8fb839f7fddaa03b934b09e7adbf0bb2c81d5a608f4d509fed8b",
            "db7a25e77084d58f35aef7740f7138469a",
            12240,
            "8823da3f3efa08423c200ccff1fb5fff58adc9aad1cc2caaa8ae100bfabac66c"
        )?
    );
    Ok(())
}

// Codes by SHA-512.
fn codes_by_sha512() -> &'static [Code] {
    &[
        (
            "RFC 4231, case 1",
            "0b0b0b0b0b0b0b0b0b0b0b0b0b0b0b0b0b0b0b0b",
            "4869205468657265",
            "87aa7cdea5ef619d4ff0b4241a1d6cb02379f4e2ce4ec2787ad0b30545e17cdedaa833b7d6b8a702038b274eaea3f4e4be9d914eeb61f1702e696c203a126854",
        ),
        (
            "RFC 4231, case 2",
            "4a656665",
            "7768617420646f2079612077616e7420666f72206e6f7468696e673f",
            "164b7a7bfcf819e2e395fbe73b56e0a387bd64222e831fd610270cd7ea2505549758bf75c05a994a6d034f65f8f0e6fdcaeab1a34d4a6b4b636e070a38bce737",
        ),
        (
            "RFC 4231, case 6",
            "aaaaaaaaaaaaaaaaaaaaaaaaaaaaaaaaaaaaaaaaaaaaaaaaaaaaaaaaaaaaaaaaaaaaaaaaaaaaaaaaaaaaaaaaaaaaaaaaaaaaaaaaaaaaaaaaaaaaaaaaaaaaaaaaaaaaaaaaaaaaaaaaaaaaaaaaaaaaaaaaaaaaaaaaaaaaaaaaaaaaaaaaaaaaaaaaaaaaaaaaaaaaaaaaaaaaaaaaaaaaaaaaaaaaaaaaaaaaaaaaaaaaaaaaaaaaaaaaaaaaaa",
            "54657374205573696e67204c6172676572205468616e20426c6f636b2d53697a65204b6579202d2048617368204b6579204669727374",
            "80b24263c7c1a3ebb71493c1dd7be8b49b46d1f41b4aeec1121b013783f8f3526b56d037e05f2598bd0fd2215d6a1e5295e64f73f63f0aec8b915a985d786598",
        ),
        (
            "a key of 128 bytes",
            "222158d65967547a2906f056de7f3eaab413dab845fd8c09b8d9ab3c7194a278494aae4109b239c03d9e002e653fab7d871724691adba1b936adba6bd39de99807865913e619602bfc45c5a8919f3ca2abdcc683e6655612d57c92b53712805e7161ba82768d479a0b20fdff5243a042cff244a350255073e977f42ebf554686",
            "3c8359930d2588a6abe05cdb8ba06554c9b115784d81e7",
            "5649e3a27fbee93c01333e792c69796e8f3e2b377dae531b86b72ae08d2b2e960a23f0a89bd804e51050effaca0e0f3d6457eed07d51b1088e2f27b6e0756f88",
        ),
        (
            "a key of 129 bytes",
            "3e9ec0433cb964519f81b3efd2cee1c6863a915060e87c0296e66a8e0185bb433537cd362b45fadf3c6c03b177c0cf7fe6db0e0b36f1368d6ec7c109c2d01fc41d14a7fa7adab5b3f4282273da26a8a38272697ab487fd13aeb4d50cf11ba4f508d883568a89268916cbe9e134fb4290fc8aa22506e0b8af254976b3a9ec42ce0a",
            "af414d40b3a016275875ea1f21ed223924c1dbc7ce055b9841ae68c2d0d3",
            "63532b1b0f01e2596af9c6418c51dda06f89c3ae31ac5c5ae3b65d6e1c2ff2a435ec269035ccebd9215cd15fb6ab47e48d8962616a5d4581316b041a3fdef663",
        ),
    ]
}

#[test]
fn hmac_by_sha512(rt: HostRuntime) -> Result<(), Fail> {
    has_codes::<HashSha512>(&rt, rt.alloc(), codes_by_sha512())
}

// Outputs by SHA-512.
fn outputs_by_sha512() -> &'static [Output] {
    &[
        ("ad", "c475b3", "067f521d62", 1, "cc"),
        (
            "afe91cb80f85d2a03d007e41ca08d8ae3d13b6c394d7d08e3bd1dc80387b654b2a453c454b25c9f338d468e0b084358ccc4ad2d99d52c3f797ff0f7e2f9bf82ce2",
            "3edf3d675a0a4c77d27b3d3669742472d9cb828ca8ac6022da14ea823f49832cf1bdee",
            "b8fd0f90b6538434e5cdf851f33b1e8d8ce9792c",
            65,
            "9df37e4df2ac1b6822a6b5372c7bd6855ddbe49e5ec4b4c38d0db01772ed2144e5b9ab30838e00fde2025f96e3710922378969ba2ff4ce09cccd896944bbb36369",
        ),
        (
            "31a5863864b7e33752c76f92abbbebb8df31e67d7f35f54aa747611fd29dfcda88c3a7ea241534b2499cd73113e18c0a533ba444a44304ca050287f0",
            "3c02bab3b13ef21f919d50b843070f877c15f879b10ba2f379794698091f9657fe68d2f5f97394cc",
            "24a23a91cb4c3e48514f34539d370cfd92d491a130ce22c1",
            200,
            "20231af9192556a9a0d436f3db192baad666ddb7b2f8b8e355e0dfb2e6d662d27260a8681553e8e07435844fe77e10f328a927a8e31206d29d47ac7514b3c496c248be84de5e9219047dd74abd6d54c65147c4260683e5dc245fa7cde7062cbe97dcfc3b852a7b2f51a6a99962b97e3d497aba7013ddabe5a678074b27f4712b8de0be8c8b7dfe06d5400060142932e10dfa43c2e53ac03d228c9da8182e60b71796eb433d539f69eb648471b0945b6cda1768840b5adbf321a625022e0e4b4cbb1276358346ab9f",
        ),
    ]
}

#[test]
fn hkdf_by_sha512(rt: HostRuntime) -> Result<(), Fail> {
    has_outputs::<HashSha512>(&rt, rt.alloc(), outputs_by_sha512())
}

// The longest output by its SHA-256, and one byte more.
#[test]
fn the_longest_output_by_sha512(rt: HostRuntime) -> Result<(), Fail> {
    assert!(rt; MAX_OUTPUT_BLOCKS * HashSha512::DIGEST_SIZE == 16320);
    assert!(rt;
        is_longest::<HashSha512>(
            rt.alloc(),
            "dd560b24e7a5a742fa97",
            "dca94b4e09d4cce80200176be184d31b2dda89db5037aa4dacbb6439bf975bdc561b4293a41c243e8b1e37",
            16320,
            "f82f925dd171c9d309a0d47b808e2d906d9d20695a6652debf10dc94c124261b"
        )?
    );
    Ok(())
}

// The laws of the standards' sizes, and the same sizes when the program runs.
#[test]
fn sizes_of_the_standards(rt: HostRuntime) {
    most_output_blocks();
    sizes_of_sha2();
    assert!(rt; HashSha256::DIGEST_SIZE == 32 && HashSha256::BLOCK_SIZE == 64);
    assert!(rt; HashSha384::DIGEST_SIZE == 48 && HashSha384::BLOCK_SIZE == 128);
    assert!(rt; HashSha512::DIGEST_SIZE == 64 && HashSha512::BLOCK_SIZE == 128);
}
