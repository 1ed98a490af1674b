//! Bech32 texts.

ghost use Rattle.std.specs.Prelude.{◌≡◌, ◌<◌, ◌^◌, ◌⊎◌, List, ℕ, length, IfErr, IfOk, IsErrOf, OnOk, Ok};
ghost use Rattle.std.specs.Fn.{FnOnceTakesAt, FnOnceReturnsAt, FnOnceReturnsAtPair};
ghost use Rattle.std.specs.String.{string_bytes};
ghost use Rattle.age_format.specs.Outside.{Wrote, WrotePart};
ghost use Rattle.bech32_long.specs.declared.error.Bech32Error.{Bech32Error as Why};
ghost use Rattle.bech32_long.specs.Answers.{IsRefusal};
ghost use Rattle.bech32_long.specs.Text.{encoding, reading, Read};
ghost use Rattle.age_primitives.specs.Decoding.{Decodes, TakesAtPair};

use age_format::PhaseError;
use age_format::outside::{Failed, Sink, write_all};
use bech32_long::{Bech32Error, Hrp, decode, encode};
use std::alloc::{AllocError, Global};

/// The Bech32 text of a human-readable part and of fewer than 2^60 bytes, in lower case (BIP 173, with no
/// limit on the length). The only error is want of memory.
pub fn bech32_encode(alloc: Global, hrp: &Hrp, bytes: &[u8]) -> Result<String, AllocError>
    requires { length bytes.now < 2 ^ 60 }
    ensures { IfOk result (λ text. string_bytes text ≡ encoding hrp.now bytes.now) }
{
    encode(alloc, hrp, bytes)
}

/// Writes the text of [`bech32_encode`], of fewer than 2^60 bytes.
///
/// `WriteFault` comes only where the sink's count of faults rose or stands at its last value; a part of the
/// text, from its front, was then written. `NoMemory` is free, and nothing was then written.
pub fn bech32_encode_to_fmt<W: Sink>(
    alloc: Global,
    out: &mut W,
    hrp: &Hrp,
    bytes: &[u8],
) -> Result<(), PhaseError>
    requires { length bytes.now < 2 ^ 60 }
    ensures written { OnOk result (Wrote W.got W.faults W.plan out.old out.new (encoding hrp.now bytes.now)) }
    ensures write_fault { IsErrOf result PhaseError.WriteFault → WrotePart W.got W.faults W.plan out.old out.new (encoding hrp.now bytes.now) }
    ensures memory { IsErrOf result PhaseError.NoMemory → out.new ≡ out.old }
    ensures no_other { IfErr result (λ e. (e ≡ PhaseError.WriteFault) ⊎ (e ≡ PhaseError.NoMemory)) }
{
    let text = encode(alloc, hrp, bytes)?;
    match write_all(out, text.as_bytes()) {
        Ok(()) => Ok(()),
        Err(Failed) => Err(PhaseError::WriteFault),
    }
}

/// Reads a Bech32 text (BIP 173, with no limit on the length), and answers what its closures make of it.
///
/// Where the text is refused, as `bech32_long::decode` says, or memory runs out, it answers what `parse_err`
/// makes of that. Else `hrp_filter` is asked of the human-readable part, in lower case; where it answers an
/// error, that is the answer, and `data_parse` isn't called. Else the answer is that of `data_parse`.
pub fn bech32_decode<E, F, G, H, T>(
    alloc: Global,
    text: &str,
    parse_err: F,
    hrp_filter: G,
    data_parse: H,
) -> Result<T, E>
where
    F: FnOnce(Bech32Error) -> E + Drop,
    G: FnOnce(&Hrp) -> Result<(), E> + Drop,
    H: FnOnce(&Hrp, &[u8]) -> Result<T, E> + Drop,
    // A closure has to be callable at nothing but what it is called at.
    requires parse_err { (why : Why) → IsRefusal (reading text.now) why → F.pre parse_err why }
    requires hrp_filter { (part bytes : List ℕ) → reading text.now ≡ Read part bytes → FnOnceTakesAt G.FnOnce hrp_filter part }
    requires data_parse { (part bytes : List ℕ) → reading text.now ≡ Read part bytes → FnOnceReturnsAt G.FnOnce hrp_filter part (Ok tt)
        → TakesAtPair H.FnOnce data_parse part bytes }
    ensures { Decodes (λ why error. F.post parse_err why error) (λ part answer. FnOnceReturnsAt G.FnOnce hrp_filter part answer)
        (λ part bytes answer. FnOnceReturnsAtPair H.FnOnce data_parse part bytes answer) (reading text.now) result }
{
    let (hrp, bytes) = match decode(alloc, text) {
        Ok(read) => read,
        Err(error) => return Err(parse_err(error)),
    };
    hrp_filter(&hrp)?;
    data_parse(&hrp, bytes.as_slice())
}
