//! Whole runs of the program over memory: sources that give one byte a read and fail, stanzas of other tags in
//! any order, and sinks that fail.

use crate::texts::{
    CHANGED_INPUT, LETTER, MAIL, MAIL_INPUT, OPENED, Part, SEED, ZERO_HEAD, ZERO_INPUT, ZERO_MAIL,
};
use age_core::outside::{CleanSource, MemSink, MemSource, Source};
use kem_hash::Sha2Hash;
use mail_commands::mail_main;
use rand::seq::SliceRandom;
use rand_chacha::ChaCha20Rng;
use rand_core::SeedableRng;
use std::alloc::{AllocError, Global};
use std::process::Abort;
use std::test::Fail;

/// What a run answered and wrote.
#[derive(Drop)]
struct Answer {
    status: u8,
    output: Vec<u8>,
}

/// The parts joined.
pub fn joined(alloc: Global, parts: &[Part]) -> Result<Vec<u8>, AllocError> {
    let mut bytes = Vec::new(alloc);
    for &(times, text) in parts {
        for _ in 0..times {
            bytes.extend_from_slice(text.as_bytes())?;
        }
    }
    Ok(bytes)
}

/// One run of a command over the source, with the writes of these numbers failing.
fn run<S: Source>(
    alloc: Global,
    command: &str,
    src: &mut S,
    fail_at: &[u64],
) -> Result<Answer, AllocError> {
    let mut words = Vec::new(alloc);
    for word in command.split(' ') {
        words.push(String::from_str(alloc, word)?)?;
    }
    let mut sink = MemSink::new(alloc, Vec::from_slice(alloc, fail_at)?);
    let status = mail_main::<Sha2Hash, S, MemSink>(alloc, &words, src, &mut sink);
    let output = Vec::from_slice(alloc, sink.bytes())?;
    Ok(Answer { status, output })
}

/// A run of `open` over a source that gives one byte a read and fails at some, and what it answers and
/// writes.
struct Case {
    name: &'static str,
    budget: &'static str,
    input: &'static [Part],
    reads: &'static [u64],
    status: u8,
    output: &'static str,
}

/// A head of zeros is read in 130 calls, and a mail of 1490 bytes in as many more.
const CASES: &[Case] = &[
    Case {
        name: "messages",
        budget: "65536",
        input: MAIL_INPUT,
        reads: &[],
        status: 0,
        output: OPENED,
    },
    Case {
        name: "second message changed",
        budget: "65536",
        input: CHANGED_INPUT,
        reads: &[],
        status: 3,
        output: "! OpenError 1\n",
    },
    Case {
        name: "first read",
        budget: "1490",
        input: ZERO_INPUT,
        reads: &[0],
        status: 4,
        output: "",
    },
    Case {
        name: "amid the seed",
        budget: "1490",
        input: ZERO_INPUT,
        reads: &[64],
        status: 4,
        output: "",
    },
    Case {
        name: "end of the head",
        budget: "1490",
        input: ZERO_INPUT,
        reads: &[129],
        status: 4,
        output: "",
    },
    Case {
        name: "front of the mail",
        budget: "1490",
        input: ZERO_INPUT,
        reads: &[130],
        status: 4,
        output: "",
    },
    Case {
        name: "second byte of the mail",
        budget: "1490",
        input: ZERO_INPUT,
        reads: &[131],
        status: 4,
        output: "",
    },
    Case {
        name: "amid the mail",
        budget: "1490",
        input: ZERO_INPUT,
        reads: &[800],
        status: 4,
        output: "",
    },
    Case {
        name: "last byte of the mail",
        budget: "1490",
        input: ZERO_INPUT,
        reads: &[1619],
        status: 4,
        output: "",
    },
    Case {
        name: "a read that is never made",
        budget: "1490",
        input: ZERO_INPUT,
        reads: &[1620],
        status: 0,
        output: "",
    },
];

/// The table, by a call.
fn cases() -> &'static [Case] {
    CASES
}

/// Whether a case has its answer.
fn has_its_answer(alloc: Global, case: &Case) -> Result<bool, AllocError> {
    let fail_at = Vec::from_slice(alloc, case.reads)?;
    let mut src = MemSource::new(joined(alloc, case.input)?, 1, fail_at);
    let command = format!(in alloc; "open 768 sha256 aes256 {}", case.budget)?;
    let answer = run(alloc, command.as_str(), &mut src, &[])?;
    Ok(answer.status == case.status && answer.output.as_slice() == case.output.as_bytes())
}

#[test]
fn sources_of_single_bytes_have_their_answers(rt: HostRuntime) -> Result<(), Fail> {
    for case in cases() {
        assert!(rt; has_its_answer(rt.alloc(), case)?, "{}", case.name);
    }
    Ok(())
}

/// Stanzas of other tags.
const OTHERS: [&str; 12] = [
    "-> n0\n\n",
    "-> n1\n\n",
    "-> n2\n\n",
    "-> n3\n\n",
    "-> n4\n\n",
    "-> n5\n\n",
    "-> n6\n\n",
    "-> n7\n\n",
    "-> n8\n\n",
    "-> n9\n\n",
    "-> n10\n\n",
    "-> n11\n\n",
];

/// A mail of zeros behind its head and these stanzas, in the order that a seed of this byte gives them.
fn shuffled(alloc: Global, k: u8) -> Result<Vec<u8>, AllocError> {
    let mut others = OTHERS;
    others.shuffle(&mut ChaCha20Rng::from_seed([k; 32]));
    let mut bytes = joined(alloc, ZERO_HEAD)?;
    for stanza in others {
        bytes.extend_from_slice(stanza.as_bytes())?;
    }
    bytes.extend_from_slice(joined(alloc, ZERO_MAIL)?.as_slice())?;
    Ok(bytes)
}

/// Whether a mail that is read from these bytes opens to no messages.
fn opens_to_none(alloc: Global, bytes: Vec<u8>) -> Result<bool, AllocError> {
    let mut src = CleanSource::new(bytes);
    let answer = run(alloc, "open 768 sha256 aes256 65536", &mut src, &[])?;
    Ok(answer.status == 0 && answer.output.is_empty())
}

/// Stanzas of other tags change no answer, in whatever order they stand in front.
#[test]
fn other_stanzas_stand_in_any_order(rt: HostRuntime) -> Result<(), Fail> {
    for k in 0..8u8 {
        let bytes = shuffled(rt.alloc(), k)?;
        assert!(rt; opens_to_none(rt.alloc(), bytes)?, "{k}");
    }
    Ok(())
}

/// What the key of the zero seed and the letter give `seal` to read.
fn seal_input(alloc: Global) -> Result<Vec<u8>, AllocError> {
    let mut src = CleanSource::new(joined(alloc, &[SEED, (1, "\n")])?);
    let mut bytes = run(alloc, "key 768", &mut src, &[])?.output;
    bytes.extend_from_slice(joined(alloc, LETTER)?.as_slice())?;
    Ok(bytes)
}

/// More writes than any of these runs makes.
const MANY_WRITES: u64 = 100;

/// The status of a run whose write of this number fails, if it wrote a front of what is due, and all of it
/// exactly where the status is 0.
fn status_at(
    alloc: Global,
    command: &str,
    input: &[u8],
    due: &[u8],
    k: u64,
) -> Result<Option<u8>, AllocError> {
    let mut src = CleanSource::new(Vec::from_slice(alloc, input)?);
    let answer = run(alloc, command, &mut src, &[k])?;
    let is_whole = answer.output.len() == due.len();
    if due.starts_with(&answer.output) && is_whole == (answer.status == 0) {
        return Ok(Some(answer.status));
    }
    Ok(None)
}

/// Each write fails in turn, until a run makes none of that number: a front of what is due was written.
fn fail_each_write(
    rt: &(impl Abort + AllocGlobal),
    command: &str,
    input: &[u8],
    due: &[u8],
) -> Result<(), Fail> {
    let mut status = 5;
    for k in 0..MANY_WRITES {
        if status == 5 {
            match status_at(rt.alloc(), command, input, due, k)? {
                Some(found) => status = found,
                None => assert!(rt; false, "{k}"),
            }
        }
    }
    assert!(rt; status == 0);
    Ok(())
}

#[test]
fn a_failed_write_leaves_a_front_of_the_messages(rt: HostRuntime) -> Result<(), Fail> {
    let input = joined(rt.alloc(), MAIL_INPUT)?;
    fail_each_write(
        &rt,
        "open 768 sha256 aes256 65536",
        &input,
        OPENED.as_bytes(),
    )
}

/// The mail that is due is the model's.
#[test]
fn a_failed_write_leaves_a_front_of_the_mail(rt: HostRuntime) -> Result<(), Fail> {
    let input = seal_input(rt.alloc())?;
    let due = joined(rt.alloc(), MAIL)?;
    fail_each_write(&rt, "seal 768 sha256 aes256", &input, &due)
}
