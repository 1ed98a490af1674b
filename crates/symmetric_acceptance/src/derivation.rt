//! Cases from the RFCs, and cases of an independent model that was written from the RFCs in another
//! language. Bytes are in hex.

use hkdf_core::laws::empty_salt_is_zeros;
use hkdf_core::{DigestBytes, HashSha256, Hkdf, HkdfExtract, HkdfHash, Hmac, MAX_OUTPUT_BLOCKS};
use std::alloc::Global;
use std::process::Abort;
use std::test::Fail;

mod long_digests;

// What a case is, a key, a text, and the code of the text under the key.
type Code = (&'static str, &'static str, &'static str, &'static str);

// A salt, key material, an info, and an output of so many bytes.
type Output = (
    &'static str,
    &'static str,
    &'static str,
    usize,
    &'static str,
);

// The digest of a message, by the calls of the trait.
fn digest<T: HkdfHash>(alloc: Global, message: &[u8]) -> Result<String, Fail> {
    let mut hasher = T::start();
    hasher.update(message);
    Ok(hex::encode(alloc, hasher.finish().as_slice())?)
}

// The HMAC of a text under a key.
fn hmac<T: HkdfHash>(alloc: Global, key: &str, text: &str) -> Result<String, Fail> {
    let mut mac = Hmac::<T>::new(hex::decode(alloc, key)?.as_slice());
    mac.update(hex::decode(alloc, text)?.as_slice());
    Ok(hex::encode(alloc, mac.finalize().as_slice())?)
}

// An output of this length under an info string.
fn expand<T: HkdfHash>(
    alloc: Global,
    hkdf: &Hkdf<T>,
    info: &str,
    len: usize,
) -> Result<Vec<u8>, Fail> {
    let mut out = vec![in alloc; 0; len]?;
    hkdf.expand(hex::decode(alloc, info)?.as_slice(), out.as_mut_slice())?;
    Ok(out)
}

// Whether the text of a case has its code.
fn has_code<T: HkdfHash>(alloc: Global, case: &Code) -> Result<bool, Fail> {
    let (_, key, text, want) = *case;
    Ok(hmac::<T>(alloc, key, text)?.as_str() == want)
}

// That the text of each case has its code.
fn has_codes<T: HkdfHash>(rt: &impl Abort, alloc: Global, cases: &[Code]) -> Result<(), Fail> {
    for case in cases {
        assert!(rt; has_code::<T>(alloc, case)?, "{}", case.0);
    }
    Ok(())
}

// Whether an expansion puts this out.
fn puts_out<T: HkdfHash>(
    alloc: Global,
    hkdf: &Hkdf<T>,
    info: &str,
    len: usize,
    want: &str,
) -> Result<bool, Fail> {
    let out = expand(alloc, hkdf, info, len)?;
    Ok(hex::encode(alloc, out.as_slice())?.as_str() == want)
}

// Whether a case has its output.
fn has_output<T: HkdfHash>(alloc: Global, case: &Output) -> Result<bool, Fail> {
    let (salt, ikm, info, len, want) = *case;
    let hkdf = Hkdf::<T>::new(
        hex::decode(alloc, salt)?.as_slice(),
        hex::decode(alloc, ikm)?.as_slice(),
    );
    puts_out(alloc, &hkdf, info, len, want)
}

// That each case has its output.
fn has_outputs<T: HkdfHash>(rt: &impl Abort, alloc: Global, cases: &[Output]) -> Result<(), Fail> {
    for case in cases {
        assert!(rt; has_output::<T>(alloc, case)?, "{} bytes", case.3);
    }
    Ok(())
}

// Whether an output of this length is refused, and nothing is written.
fn is_refused<T: HkdfHash>(alloc: Global, hkdf: &Hkdf<T>, len: usize) -> Result<bool, Fail> {
    let mut refused = vec![in alloc; 7; len]?;
    let is_err = hkdf.expand(&[], refused.as_mut_slice()).is_err();
    Ok(is_err && refused.iter().all(|byte| *byte == 7))
}

// Whether the longest output has this SHA-256, and one byte more is refused.
fn is_longest<T: HkdfHash>(
    alloc: Global,
    salt: &str,
    info: &str,
    len: usize,
    want: &str,
) -> Result<bool, Fail> {
    let hkdf = Hkdf::<T>::new(hex::decode(alloc, salt)?.as_slice(), &[]);
    let out = expand(alloc, &hkdf, info, len)?;
    let is_digest = digest::<HashSha256>(alloc, out.as_slice())?.as_str() == want;
    Ok(is_refused(alloc, &hkdf, len.saturating_add(1))? && is_digest)
}

// Codes by SHA-256.
fn codes_by_sha256() -> &'static [Code] {
    &[
        (
            "RFC 4231, case 1",
            "0b0b0b0b0b0b0b0b0b0b0b0b0b0b0b0b0b0b0b0b",
            "4869205468657265",
            "b0344c61d8db38535ca8afceaf0bf12b881dc200c9833da726e9376c2e32cff7",
        ),
        (
            "RFC 4231, case 2",
            "4a656665",
            "7768617420646f2079612077616e7420666f72206e6f7468696e673f",
            "5bdcc146bf60754e6a042426089575c75a003f089d2739839dec58b964ec3843",
        ),
        (
            "RFC 4231, case 3",
            "aaaaaaaaaaaaaaaaaaaaaaaaaaaaaaaaaaaaaaaa",
            "dddddddddddddddddddddddddddddddddddddddddddddddddddddddddddddddddddddddddddddddddddddddddddddddddddd",
            "773ea91e36800e46854db8ebd09181a72959098b3ef8c122d9635514ced565fe",
        ),
        (
            "RFC 4231, case 6",
            "aaaaaaaaaaaaaaaaaaaaaaaaaaaaaaaaaaaaaaaaaaaaaaaaaaaaaaaaaaaaaaaaaaaaaaaaaaaaaaaaaaaaaaaaaaaaaaaaaaaaaaaaaaaaaaaaaaaaaaaaaaaaaaaaaaaaaaaaaaaaaaaaaaaaaaaaaaaaaaaaaaaaaaaaaaaaaaaaaaaaaaaaaaaaaaaaaaaaaaaaaaaaaaaaaaaaaaaaaaaaaaaaaaaaaaaaaaaaaaaaaaaaaaaaaaaaaaaaaaaaaa",
            "54657374205573696e67204c6172676572205468616e20426c6f636b2d53697a65204b6579202d2048617368204b6579204669727374",
            "60e431591ee0b67f0d8a26aacbf5b77f8e0bc6213728c5140546040f0ee37f54",
        ),
        (
            "a key of 0 bytes",
            "",
            "",
            "b613679a0814d9ec772f95d778c35fc5ff1697c493715653c6c712144292c5ad",
        ),
        (
            "a key of 64 bytes",
            "c2bbf27982fb5c9b9e1a8cbe5dff80de7e238246feeca77fe69b637e374b40fbe8e24c03820442f6f652914edb9fefc6cb05af952fbf1f127b6ec063064e690c",
            "206eaa685352d0d0e82f43e8ff14e5d85d6abc8eddee9712decdf1293316f8037a4ae7b219284b5cf83b529b906ac64883c5dde962ab3415924ecc01",
            "dd0e9aea4d1980590f582c330237d27c5e51e3596e6796b762ccf184c6a6b7b1",
        ),
        (
            "a key of 65 bytes",
            "8abbaf5d18250429f1a5ac0ec7806768ad299dbb03930abe98d0a9c8a58ab799fd1658d5b6ebc9fe536f60027deadd73e536fe6fd9df648dbdad469c1fed3cb07d",
            "3a27dd4276858b988bb3480cfcd1052bb5c0e792a93abdf5fe50323b537cd6ecd926bde469440e2aa2b881872684be35d25dba041af9742bb809ed261f1dbbe46e7b5b",
            "464ee8b94824a4b350cf32c4bf14b083b0e3851ea89d7a1219f596f0b2e0f5ac",
        ),
        (
            "a key of 131 bytes",
            "5cf5ba4f3786302bbe6c2ed152fab9aee5f20a89c62419a8f7d4575b19fc43a122a9b5fa1bbe95fbaa69707886a1d89c1ab52312dc7bc04b52756a8e6db697e453c0a5c8ff8bca0790908ba1a553ddb84fae92ea9d733d3d90bd31c229f7afc562bfec747e26526ebe0c6908d560676334ad9cec6a06427af262b4c584a8aa2032d161",
            "b9e96d914f17c823c5789f2c194b13f0af044b581c224fa32488693d5a181f97e376495a0cda84a590c284f6",
            "03c9e8257bcae2857c3e64bfedb8d70b7e53c6a0e927534e361b38c4261de242",
        ),
    ]
}

#[test]
fn hmac_of_short_and_long_keys(rt: HostRuntime) -> Result<(), Fail> {
    has_codes::<HashSha256>(&rt, rt.alloc(), codes_by_sha256())
}

// The HMAC of a text that is fed byte by byte.
fn hmac_by_bytes<T: HkdfHash>(alloc: Global, key: &[u8], text: &[u8]) -> Result<String, Fail> {
    let mut mac = Hmac::<T>::new(key);
    for byte in text {
        mac.update(&[*byte]);
    }
    Ok(hex::encode(alloc, mac.finalize().as_slice())?)
}

// RFC 4231, case 2.
#[test]
fn hmac_fed_byte_by_byte(rt: HostRuntime) -> Result<(), Fail> {
    let code = hmac_by_bytes::<HashSha256>(rt.alloc(), b"Jefe", b"what do ya want for nothing?")?;
    assert!(rt;
        code.as_str() == "5bdcc146bf60754e6a042426089575c75a003f089d2739839dec58b964ec3843",
        "{code}"
    );
    Ok(())
}

// The pseudorandom key of key material in two pieces, the expansion from it, and that from its bytes.
fn extract<T: HkdfHash>(salt: &[u8], front: &[u8], back: &[u8]) -> (DigestBytes, Hkdf<T>, Hkdf<T>) {
    let mut extraction = HkdfExtract::<T>::new(salt);
    extraction.input_ikm(front);
    extraction.input_ikm(back);
    let (prk, extracted) = extraction.finalize();
    let keyed = Hkdf::<T>::from_prk(prk.as_slice());
    (prk, extracted, keyed)
}

// Whether an expansion puts this out under the info string of RFC 5869, case 1, whole and in pieces.
fn puts_out_both_ways<T: HkdfHash>(
    alloc: Global,
    hkdf: &Hkdf<T>,
    want: &str,
) -> Result<bool, Fail> {
    let mut out = [0; 42];
    hkdf.expand_five(
        &[0xf0, 0xf1],
        &[],
        &[0xf2, 0xf3, 0xf4, 0xf5, 0xf6],
        &[0xf7],
        &[0xf8, 0xf9],
        &mut out,
    )?;
    let is_same = hex::encode(alloc, out)?.as_str() == want;
    Ok(puts_out(alloc, hkdf, "f0f1f2f3f4f5f6f7f8f9", 42, want)? && is_same)
}

// RFC 5869, case 1, by each way of making an expansion.
#[test]
fn hkdf_of_rfc_5869(rt: HostRuntime) -> Result<(), Fail> {
    let alloc = rt.alloc();
    let salt = hex::decode(alloc, "000102030405060708090a0b0c")?;
    let ikm = [0x0b; 22];
    let (prk, extracted, keyed) = extract::<HashSha256>(salt.as_slice(), &ikm[..5], &ikm[5..]);
    let prk = hex::encode(alloc, prk.as_slice())?;
    assert!(rt;
        prk.as_str() == "077709362c2e32df0ddc3f0dc47bba6390b6c73bb50f9c3122ec844ad7c2b3e5",
        "{prk}"
    );

    let made = Hkdf::<HashSha256>::new(salt.as_slice(), &ikm);
    for hkdf in [&extracted, &made, &keyed] {
        assert!(rt;
            puts_out_both_ways(
                alloc,
                hkdf,
                "3cb25f25faacd57a90434f64d0362f2a2d2d0a90cf1a5a4c5db02d56ecc4c5bf34007208d5b887185865"
            )?
        );
    }
    Ok(())
}

// Outputs by SHA-256.
fn outputs_by_sha256() -> &'static [Output] {
    &[
        ("", "", "", 0, ""),
        ("45", "fa42f6", "efbc89a5c8", 1, "18"),
        (
            "6376261a6971cc9066d2baaf401d9e69295e21851e63121c69d3968f5a12e6ec55",
            "10e9242b2b3a35487f01a2c8ab27af18c28329",
            "a83fd8e2262824b2fe6c2663ec27f2fefabbf6fb7bc643d633bc66b7ec329c1313959330b9ca2df666fc4a",
            33,
            "7cb9350e342e2b56c745cd355065f1bd37d923920e2521f4a527b6b61eef2c03c1",
        ),
        (
            "377a1fb39b84790ce604354c9060c8942939e456fbe85738a044714cbfb282be575bab46e2e5c18078cb112c4f0130390488f084ac0b2afaf45cedca654b6771",
            "1ca33b4472f1aab85c61e5d737bea8e18ed2b1f5431a15c9451efcf43ffe97b2",
            "2e5ec55219e22106da199a711a2ba5",
            64,
            "9bcc294cf23a3c9327b12744297ba936e36919adb42846535a039e7c5b2bfc0af4cea7e7497cabc46da3127429ca3cfea6ff5648dbed057acaa9de1a127cdbac",
        ),
    ]
}

#[test]
fn hkdf_of_the_model(rt: HostRuntime) -> Result<(), Fail> {
    has_outputs::<HashSha256>(&rt, rt.alloc(), outputs_by_sha256())
}

// Whether no salt gives what 32 zeros give: by the law, and when they are asked.
fn is_no_salt_zeros<T: HkdfHash>(alloc: Global) -> Result<bool, Fail> {
    empty_salt_is_zeros::<T>();
    let of_none = expand(alloc, &Hkdf::<T>::new(&[], b"ikm"), "", 32)?;
    let of_zeros = expand(alloc, &Hkdf::<T>::new(&[0; 32], b"ikm"), "", 32)?;
    Ok(of_none.as_slice() == of_zeros.as_slice())
}

// The law of the empty salt at SHA-256, and what it says of one salt.
#[test]
fn no_salt_is_zeros(rt: HostRuntime) -> Result<(), Fail> {
    assert!(rt; is_no_salt_zeros::<HashSha256>(rt.alloc())?);
    Ok(())
}

// The longest output by its SHA-256, and one byte more.
#[test]
fn the_longest_output(rt: HostRuntime) -> Result<(), Fail> {
    assert!(rt; MAX_OUTPUT_BLOCKS * HashSha256::DIGEST_SIZE == 8160);
    assert!(rt;
        is_longest::<HashSha256>(
            rt.alloc(),
            "1df222289c536885ddeb719207f0372220e793973f7fd64998c43982c5d52ad2d2ce6e68af30ac17",
            "c87b59ec87ec06d39d3f38fa02e69f045cca76fedc8e41593e2c771ff62959c16ceba3c4f804b778f5a33db89be50b438e229526",
            8160,
            "84f39d9660ba6a318e0f0cf34c17a98644f29bc2cc7a8a89515464f1ccf2a1c9"
        )?
    );
    Ok(())
}
