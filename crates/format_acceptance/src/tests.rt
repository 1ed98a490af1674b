//! Each row of the tables, by one call.

use crate::reads::{
    Read, ReadString, arbitrary_strings, incomplete_stanzas, incomplete_strings, no_stanzas,
    no_strings, other_strings, stanzas, strings,
};
use crate::sends::{Grease, Seeded, Send, finishes, greases, seeded_greases, seeded_sends, sends};
use crate::words::Words;
use age_format::format::AgeStanza;
use age_format::format::read::{ReadRefused, age_stanza, arbitrary_string, is_arbitrary_string};
use age_format::outside::MemSink;
use age_send::{finish_to, grease_the_joint, send_to};
use hex::FromHex;
use rand_chacha::ChaCha20Rng;
use rand_core::{Rng, SeedableRng};
use std::alloc::Global;
use std::test::Fail;

// A sink over memory that never fails.
fn sink(alloc: Global) -> MemSink {
    MemSink::new(alloc, Vec::new(alloc))
}

// The generator of a row's seed.
fn seeded(row: &Seeded) -> Result<ChaCha20Rng, Fail> {
    Ok(ChaCha20Rng::from_seed(<[u8; 32] as FromHex>::from_hex(row.seed)?))
}

// Whether the next stanza of grease is the one at the front of this text, and what follows it there.
fn grease_at<'a, R: Rng>(
    alloc: Global,
    rng: &mut R,
    text: &'a [u8],
) -> Result<(bool, &'a [u8]), Fail> {
    let grease = grease_the_joint(alloc, rng)?;
    let (rest, stanza) = age_stanza(alloc, text)?;
    Ok((grease == stanza.to_stanza(alloc)?, rest))
}

// Whether so many stanzas of grease are those of this text, which ends behind them.
fn are_greases<R: Rng>(alloc: Global, rng: &mut R, calls: u8, text: &[u8]) -> Result<bool, Fail> {
    let mut text = text;
    for _ in 0..calls {
        let (is_same, rest) = grease_at(alloc, rng, text)?;
        if !is_same {
            return Ok(false);
        }
        text = rest;
    }
    Ok(text.is_empty())
}

// Whether a stanza with this header and body is sent.
fn is_sent<R: Rng>(
    alloc: Global,
    out: &mut MemSink,
    rng: &mut R,
    header: &[u8],
    body: &[u8],
) -> Result<bool, Fail> {
    let header = age_stanza(alloc, header)?.1.to_stanza(alloc)?;
    let sent = send_to(
        alloc,
        out,
        rng,
        header.tag.as_str(),
        header.args.as_slice(),
        body,
    );
    Ok(sent.is_ok())
}

// Whether a phase is finished.
fn is_finished<R: Rng>(alloc: Global, out: &mut MemSink, rng: &mut R) -> bool {
    finish_to(alloc, out, rng).is_ok()
}

#[test]
fn grease_has_its_words(rt: HostRuntime) -> Result<(), Fail> {
    for row in greases() {
        let mut words = Words(row.words);
        assert!(rt; are_greases(rt.alloc(), &mut words, 1, row.spelling)?);
        assert!(rt; words.0.len() == 1);
    }
    Ok(())
}

// Whether a row's words make its text, and but the last one of them is taken.
fn has_its_words(alloc: Global, row: &Send) -> Result<bool, Fail> {
    let mut words = Words(row.words);
    let mut out = sink(alloc);
    let is_sent = is_sent(alloc, &mut out, &mut words, row.header, row.body)?;
    Ok(is_sent && out.bytes() == row.text && words.0.len() == 1)
}

#[test]
fn sends_have_their_words(rt: HostRuntime) -> Result<(), Fail> {
    for row in sends() {
        assert!(rt; has_its_words(rt.alloc(), row)?);
    }
    Ok(())
}

// Whether a row's words make its finish, and but the last one of them is taken.
fn finishes_by_words(alloc: Global, row: &Grease) -> bool {
    let mut words = Words(row.words);
    let mut out = sink(alloc);
    is_finished(alloc, &mut out, &mut words) && out.bytes() == row.spelling && words.0.len() == 1
}

#[test]
fn finishes_have_their_words(rt: HostRuntime) -> Result<(), Fail> {
    for row in finishes() {
        assert!(rt; finishes_by_words(rt.alloc(), row));
    }
    Ok(())
}

#[test]
fn grease_has_its_seeds(rt: HostRuntime) -> Result<(), Fail> {
    for row in seeded_greases() {
        let mut rng = seeded(row)?;
        assert!(rt; are_greases(rt.alloc(), &mut rng, row.calls, row.text)?);
        assert!(rt; rng.next_u32() == row.next);
    }
    Ok(())
}

// Whether the command `command`, i and i times the byte i is sent.
fn is_command_sent<R: Rng>(
    alloc: Global,
    out: &mut MemSink,
    rng: &mut R,
    i: u8,
) -> Result<bool, Fail> {
    let header = format!(in alloc; "-> command {i}\n\n")?;
    let body = vec![in alloc; i; i as usize]?;
    is_sent(alloc, out, rng, header.as_bytes(), body.as_slice())
}

// Whether so many such commands and a finish are sent.
fn are_commands_sent<R: Rng>(
    alloc: Global,
    out: &mut MemSink,
    rng: &mut R,
    calls: u8,
) -> Result<bool, Fail> {
    for i in 0..calls {
        if !is_command_sent(alloc, out, rng, i)? {
            return Ok(false);
        }
    }
    Ok(is_finished(alloc, out, rng))
}

// Whether a row's seed makes its text, and its word follows.
fn has_its_seed(alloc: Global, row: &Seeded) -> Result<bool, Fail> {
    let mut rng = seeded(row)?;
    let mut out = sink(alloc);
    let are_sent = are_commands_sent(alloc, &mut out, &mut rng, row.calls)?;
    Ok(are_sent && out.bytes() == row.text && rng.next_u32() == row.next)
}

#[test]
fn sends_have_their_seeds(rt: HostRuntime) -> Result<(), Fail> {
    for row in seeded_sends() {
        assert!(rt; has_its_seed(rt.alloc(), row)?);
    }
    Ok(())
}

// Whether a stanza has these arguments, and no other.
fn has_args(stanza: &AgeStanza<'_>, args: &[&str]) -> bool {
    if stanza.arg_count() != args.len() {
        return false;
    }
    for (i, arg) in args.iter().enumerate() {
        if stanza.arg(i) != *arg {
            return false;
        }
    }
    true
}

// Whether a text is read as its row says.
fn is_read(alloc: Global, row: &Read) -> Result<bool, Fail> {
    let (rest, stanza) = age_stanza(alloc, row.text)?;
    let body = stanza.body(alloc)?;
    Ok(
        rest == row.rest
            && stanza.tag() == row.tag
            && has_args(&stanza, row.args)
            && body.as_slice() == row.body,
    )
}

// Why no stanza is read of a text.
fn refusal_of_stanza(alloc: Global, text: &[u8]) -> Option<ReadRefused> {
    age_stanza(alloc, text).err()
}

#[test]
fn stanzas_are_read(rt: HostRuntime) -> Result<(), Fail> {
    for row in stanzas() {
        assert!(rt; is_read(rt.alloc(), row)?);
    }
    for text in incomplete_stanzas() {
        assert!(rt;
            matches!(
                refusal_of_stanza(rt.alloc(), text),
                Some(ReadRefused::Incomplete)
            )
        );
    }
    for text in no_stanzas() {
        assert!(rt;
            matches!(
                refusal_of_stanza(rt.alloc(), text),
                Some(ReadRefused::Error)
            )
        );
    }
    Ok(())
}

// Whether a text is read as its row says.
fn is_string_read(row: &ReadString) -> Result<bool, Fail> {
    let (rest, string) = arbitrary_string(row.text)?;
    Ok(rest == row.rest && string == row.string)
}

// Why no string is read of a text.
fn refusal_of_string(text: &[u8]) -> Option<ReadRefused> {
    arbitrary_string(text).err()
}

#[test]
fn strings_are_read(rt: HostRuntime) -> Result<(), Fail> {
    for row in strings() {
        assert!(rt; is_string_read(row)?);
    }
    for text in incomplete_strings() {
        assert!(rt; matches!(refusal_of_string(text), Some(ReadRefused::Incomplete)));
    }
    for text in no_strings() {
        assert!(rt; matches!(refusal_of_string(text), Some(ReadRefused::Error)));
    }
    for text in arbitrary_strings() {
        assert!(rt; is_arbitrary_string(text));
    }
    for text in other_strings() {
        assert!(rt; !is_arbitrary_string(text));
    }
    Ok(())
}
