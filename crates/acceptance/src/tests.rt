//! Whole runs over memory, and the calls below them, by their tables.

ghost use Rattle.std.specs.Prelude.{◌≤◌};

use crate::mails::OPENED;
use crate::runs::{
    CountedRun, DONE_INPUT, FaultyRun, MESSAGES_INPUT, Part, Run, ZERO_INPUT, ZERO_MAIL, ZERO_SEED,
    counted_runs, faulty_runs, generated, heads, keys, no_commands, opened_mails, refusals,
};
use crate::seals::{edge_keys, ended_inputs, faulty_lines, faulty_messages, opened_seals, seals};
use age_core::outside::{CleanSource, MemSink, MemSource, Source};
use hash_families::{AboutModulus, Ones, RepeatingHash, SmallAndFifty, Zeros};
use hpke::{AesGcm256, Deserializable, HkdfSha256, MaskKem, MaskKey};
use kem_hash::{KemHash, Sha2Hash};
use kem_mail::{MailError, MessageList, open_mail, open_with};
use mail_commands::laws::{headline, headline_over_memory};
use mail_commands::mail_main;
use ml_kem::MlKem768;
use sha2::{Digest, Sha256};
use std::alloc::{AllocError, Global};
use std::process::Abort;
use std::test::Fail;

/// More bytes than any input has.
const WHOLE: usize = 65536;

/// The command of most runs.
const OPEN: &str = "open 768 sha256 aes256 65536";

/// What a run answered and wrote.
#[derive(Drop)]
struct Answer {
    status: u8,
    output: Vec<u8>,
}

/// The words of a command as the program gets them. Without a command there are none.
fn words_of(alloc: Global, command: &str) -> Result<Vec<String>, AllocError> {
    let mut words = Vec::new(alloc);
    if !command.is_empty() {
        for word in command.split(' ') {
            words.push(String::from_str(alloc, word)?)?;
        }
    }
    Ok(words)
}

/// The parts joined.
fn input(alloc: Global, parts: &[Part]) -> Result<Vec<u8>, AllocError> {
    let mut bytes = Vec::new(alloc);
    for &(times, text) in parts {
        for _ in 0..times {
            bytes.extend_from_slice(text.as_bytes())?;
        }
    }
    Ok(bytes)
}

/// One run over the source, with the writes of these numbers failing.
fn run_by<H: KemHash, S: Source>(
    alloc: Global,
    command: &str,
    src: &mut S,
    fail_at: &[u64],
) -> Result<Answer, AllocError> {
    let words = words_of(alloc, command)?;
    let mut sink = MemSink::new(alloc, Vec::from_slice(alloc, fail_at)?);
    let status = mail_main::<H, S, MemSink>(alloc, &words, src, &mut sink);
    let output = Vec::from_slice(alloc, sink.bytes())?;
    Ok(Answer { status, output })
}

/// One run over the family by SHA-2.
fn run<S: Source>(
    alloc: Global,
    command: &str,
    src: &mut S,
    fail_at: &[u64],
) -> Result<Answer, AllocError> {
    run_by::<Sha2Hash, S>(alloc, command, src, fail_at)
}

/// One run over a family and a source that never fails.
fn run_clean<H: KemHash>(
    alloc: Global,
    command: &str,
    parts: &[Part],
) -> Result<Answer, AllocError> {
    let mut src = CleanSource::new(input(alloc, parts)?);
    run_by::<H, CleanSource>(alloc, command, &mut src, &[])
}

/// A source over the parts, by pieces of this size, whose reads of these numbers fail.
fn source(
    alloc: Global,
    parts: &[Part],
    piece: usize,
    fail_at: &[u64],
) -> Result<MemSource, AllocError>
    requires { 1 ≤ piece }
{
    let fail_at = Vec::from_slice(alloc, fail_at)?;
    Ok(MemSource::new(input(alloc, parts)?, piece, fail_at))
}

/// Whether an answer has this status and this output.
fn is_answer(answer: &Answer, status: u8, output: &str) -> bool {
    answer.status == status && answer.output.as_slice() == output.as_bytes()
}

/// Whether a run has its answer where its bytes are cut so.
fn has_its_answer(alloc: Global, row: &Run, piece: usize) -> Result<bool, AllocError>
    requires { 1 ≤ piece }
{
    let mut src = source(alloc, row.input, piece, &[])?;
    let answer = run(alloc, row.command, &mut src, &[])?;
    Ok(is_answer(&answer, row.status, row.output))
}

/// Each run of a table has its answer, however its bytes are cut.
fn compare(rt: &(impl Abort + AllocGlobal), table: &[Run]) -> Result<(), Fail> {
    for row in table {
        for piece in [1, 7, 64, 4096] {
            assert!(rt; has_its_answer(rt.alloc(), row, piece)?, "{}", row.name);
        }
    }
    Ok(())
}

#[test]
fn refusals_have_their_answers(rt: HostRuntime) -> Result<(), Fail> {
    compare(&rt, refusals())
}

#[test]
fn opened_mails_have_their_answers(rt: HostRuntime) -> Result<(), Fail> {
    compare(&rt, opened_mails())
}

#[test]
fn sealed_mails_have_their_text(rt: HostRuntime) -> Result<(), Fail> {
    compare(&rt, seals())
}

#[test]
fn sealed_mails_open(rt: HostRuntime) -> Result<(), Fail> {
    compare(&rt, opened_seals())
}

#[test]
fn inputs_of_seal_that_end_are_refused(rt: HostRuntime) -> Result<(), Fail> {
    compare(&rt, ended_inputs())
}

#[test]
fn faulty_lines_have_their_places(rt: HostRuntime) -> Result<(), Fail> {
    compare(&rt, faulty_lines())
}

#[test]
fn faulty_messages_have_their_places(rt: HostRuntime) -> Result<(), Fail> {
    compare(&rt, faulty_messages())
}

#[test]
fn keys_at_the_edges_have_their_answers(rt: HostRuntime) -> Result<(), Fail> {
    compare(&rt, edge_keys())
}

#[test]
fn heads_have_their_answers(rt: HostRuntime) -> Result<(), Fail> {
    compare(&rt, heads())
}

/// Whether a run has its status, after as many reads as it makes.
fn is_counted(alloc: Global, counted: &CountedRun) -> Result<bool, AllocError> {
    let mut src = source(alloc, counted.input, WHOLE, counted.fail_at)?;
    let answer = run(alloc, counted.command, &mut src, &[])?;
    Ok(answer.status == counted.status && src.reads() == counted.reads)
}

/// A head is read byte by byte, and not asked for again behind its end or a fault; and of a mail no more
/// than the budget is asked for.
#[test]
fn reads_are_counted(rt: HostRuntime) -> Result<(), Fail> {
    for counted in counted_runs() {
        assert!(rt; is_counted(rt.alloc(), counted)?, "{}", counted.name);
    }
    Ok(())
}

#[test]
fn a_clean_source_gives_the_same(rt: HostRuntime) -> Result<(), Fail> {
    let answer = run_clean::<Sha2Hash>(rt.alloc(), OPEN, DONE_INPUT)?;
    assert!(rt; is_answer(&answer, 3, "! NotOneKem 0\n"));
    Ok(())
}

/// Whether a run over a family has this answer, after so many reads.
fn answers_after<H: KemHash>(
    alloc: Global,
    command: &str,
    parts: &[Part],
    (status, output): (u8, &str),
    reads: u64,
) -> Result<bool, AllocError> {
    let mut src = source(alloc, parts, WHOLE, &[])?;
    let answer = run_by::<H, MemSource>(alloc, command, &mut src, &[])?;
    Ok(is_answer(&answer, status, output) && src.reads() == reads)
}

/// Nothing is read.
#[test]
fn generated_mails_are_told(rt: HostRuntime) -> Result<(), Fail> {
    for row in generated() {
        let want = (row.status, row.output);
        let is_told = answers_after::<Sha2Hash>(rt.alloc(), row.command, row.input, want, 0)?;
        assert!(rt; is_told, "{}", row.name);
    }
    Ok(())
}

/// Other words are refused, and nothing is read.
#[test]
fn other_words_are_refused(rt: HostRuntime) -> Result<(), Fail> {
    for command in no_commands() {
        let want = (2, "! words\n");
        assert!(rt; answers_after::<Sha2Hash>(rt.alloc(), command, DONE_INPUT, want, 0)?);
    }
    Ok(())
}

/// Whether what a run wrote has this SHA-256.
fn has_digest(alloc: Global, answer: &Answer, digest: &str) -> Result<bool, Fail> {
    let found = hex::encode(alloc, &Sha256::digest(answer.output.as_slice()))?;
    Ok(found.as_str() == digest)
}

/// Whether a command writes of the zero seed what has this SHA-256, and nothing behind the seed counts.
fn has_key(alloc: Global, command: &str, digest: &str) -> Result<bool, Fail> {
    let answer = run_clean::<Sha2Hash>(alloc, command, &[ZERO_SEED, (1, "\nanything")])?;
    Ok(answer.status == 0 && has_digest(alloc, &answer, digest)?)
}

#[test]
fn keys_of_the_zero_seed_are_written(rt: HostRuntime) -> Result<(), Fail> {
    for &(command, digest) in keys() {
        assert!(rt; has_key(rt.alloc(), command, digest)?, "{command}");
    }
    Ok(())
}

/// Whether a run has its answer where its reads and writes fail.
fn is_faulty(alloc: Global, faulty: &FaultyRun) -> Result<bool, AllocError> {
    let mut src = source(alloc, faulty.input, WHOLE, faulty.reads)?;
    let answer = run(alloc, OPEN, &mut src, faulty.writes)?;
    Ok(is_answer(&answer, faulty.status, faulty.output))
}

/// Faults of the source and of the sink. A fault behind a whole mail changes no answer.
#[test]
fn faults_have_their_status(rt: HostRuntime) -> Result<(), Fail> {
    for faulty in faulty_runs() {
        assert!(rt; is_faulty(rt.alloc(), faulty)?, "{}", faulty.name);
    }
    Ok(())
}

/// Opens a mail without messages by the key of the zero seed.
fn open_zero_mail<H: KemHash>(
    alloc: Global,
    src: &mut MemSource,
) -> Result<MessageList, MailError> {
    open_mail::<MlKem768, H, HkdfSha256, AesGcm256, MemSource>(alloc, &[0; 64], b"", src, 1490)
}

/// Whether over a family that gives no key a mail is refused so.
fn has_no_key<H: KemHash>(alloc: Global, src: &mut MemSource) -> bool {
    matches!(
        open_zero_mail::<H>(alloc, src),
        Err(MailError::XofExhausted)
    )
}

/// Whether over a family a mail opens to no messages.
fn opens_to_none<H: KemHash>(alloc: Global, src: &mut MemSource) -> Result<bool, Fail> {
    Ok(open_zero_mail::<H>(alloc, src)?.is_empty())
}

/// A mail opens by its key, and a seed that gives none is told before anything is read.
#[test]
fn a_seed_gives_a_key_or_none(rt: HostRuntime) -> Result<(), Fail> {
    let mut src = source(rt.alloc(), ZERO_MAIL, WHOLE, &[])?;
    assert!(rt; has_no_key::<RepeatingHash<Ones>>(rt.alloc(), &mut src));
    assert!(rt; src.reads() == 0);
    assert!(rt; opens_to_none::<Sha2Hash>(rt.alloc(), &mut src)?);
    Ok(())
}

/// Whether what `key 768` writes of the zero seed over a family has this SHA-256.
fn has_family_key<H: KemHash>(alloc: Global, digest: &str) -> Result<bool, Fail> {
    let answer = run_clean::<H>(alloc, "key 768", &[ZERO_SEED, (1, "\n")])?;
    has_digest(alloc, &answer, digest)
}

/// The keys of an independent model, over families whose XOF repeats three bytes.
#[test]
fn families_have_their_keys(rt: HostRuntime) -> Result<(), Fail> {
    assert!(rt;
        has_family_key::<RepeatingHash<Zeros>>(
            rt.alloc(),
            "41a257ecb2f65ba6810bc8eadfda3b5a679fa9b0fcbe58cc98ee1f79b4b7c32f",
        )?
    );
    assert!(rt;
        has_family_key::<RepeatingHash<SmallAndFifty>>(
            rt.alloc(),
            "af65637c12590a01f31b7fdf30f0a1eeef9907b7c8f5664b9eca395818bdd426",
        )?
    );
    assert!(rt;
        has_family_key::<RepeatingHash<AboutModulus>>(
            rt.alloc(),
            "5c5475daf9ec25db72b8ebd07cb3e385efe970b7f2509e7c4cab013344e385a3",
        )?
    );
    Ok(())
}

/// Whether `open` over a family finds no message behind an encapsulated key of zeros.
fn opens_zeros<H: KemHash>(alloc: Global) -> Result<bool, AllocError> {
    let answer = run_clean::<H>(alloc, OPEN, ZERO_INPUT)?;
    Ok(answer.status == 0 && answer.output.is_empty())
}

#[test]
fn families_open_a_mail(rt: HostRuntime) -> Result<(), Fail> {
    assert!(rt; opens_zeros::<RepeatingHash<Zeros>>(rt.alloc())?);
    assert!(rt; opens_zeros::<RepeatingHash<SmallAndFifty>>(rt.alloc())?);
    assert!(rt; opens_zeros::<RepeatingHash<AboutModulus>>(rt.alloc())?);
    Ok(())
}

/// Whether over a family without a key a command says so, after so many reads.
fn tells_no_key<H: KemHash>(alloc: Global, command: &str, reads: u64) -> Result<bool, AllocError> {
    let want = (3, "! XofExhausted\n");
    answers_after::<H>(alloc, command, ZERO_INPUT, want, reads)
}

/// Where no seed gives a key both commands say so, and read the seed and the info alone.
#[test]
fn a_seed_without_a_key_is_told(rt: HostRuntime) -> Result<(), Fail> {
    for (command, reads) in [(OPEN, 130), ("key 768", 129)] {
        let is_told = tells_no_key::<RepeatingHash<Ones>>(rt.alloc(), command, reads)?;
        assert!(rt; is_told, "{command}");
    }
    Ok(())
}

/// Mails under the test KEM for a key of zeros, each with its budget and the reads that fail; and the one
/// message, or why none was opened. The first mail is an independent model's.
const MASKED: &[(&str, u64, &[u64], Result<&str, MailError>)] = &[
    (
        "-> kem\nJQJo5PBhliz24H87GNvYYxSw/opXfWLyXqeOs/puXg4\n-> msg\n4fj44Ie0Yr63h/3OTjfLwXR9F1k+\n-> done\n\n",
        96,
        &[],
        Ok("hello"),
    ),
    (
        "-> kem\nJQJo5PBhliz24H87GNvYYxSw/opXfWLyXqeOs/puXg4\n-> msg\n4fj44Ie0Yr63h/3OTjfLwXR9F1k+\n-> done\n\n",
        95,
        &[],
        Err(MailError::TooMuch),
    ),
    (
        "-> kem\nJQJo5PBhliz24H87GNvYYxSw/opXfWLyXqeOs/puXg4\n-> msg\n4fj44Ie0Yr63h/3OTjfLwXR9F1k+\n-> done\n",
        96,
        &[],
        Err(MailError::UnexpectedEof),
    ),
    (
        "-> kem\nJQJo5PBhliz24H87GNvYYxSw/opXfWLyXqeOs/puXg4\n-> msg\n4fj44Ie0Yr63h/3OTjfLwXR9F1k+\n-> done\n\n",
        96,
        &[0],
        Err(MailError::ReadFault),
    ),
    (
        "-> kem\nJQJo5PBhliz24H87GNvYYxSw/opXfWLyXqeOs/puXg4\n-> msg\n5fj44Ie0Yr63h/3OTjfLwXR9F1k+\n-> done\n\n",
        96,
        &[],
        Err(MailError::OpenError(0)),
    ),
    (
        "-> kem\nAAAAAAAAAAAAAAAAAAAAAAAAAAAAAAAAAAAAAAAAAA\n-> done\n\n",
        100,
        &[],
        Err(MailError::IncorrectInputLength(32, 31)),
    ),
    ("-> done\n\n", 100, &[], Err(MailError::NotOneKem(0))),
    ("-> x\n/\n", 100, &[], Err(MailError::InvalidData)),
];

/// The table, by a call.
fn masked() -> &'static [(
    &'static str,
    u64,
    &'static [u64],
    Result<&'static str, MailError>,
)] {
    MASKED
}

/// What the text of a mail opens to under the test KEM.
fn open_masked(
    alloc: Global,
    key: &MaskKey,
    text: &'static str,
    budget: u64,
    fail_at: &[u64],
) -> Result<MessageList, MailError> {
    let mut src = source(alloc, &[(1, text)], WHOLE, fail_at)?;
    open_with::<MaskKem, HkdfSha256, AesGcm256, MemSource>(alloc, key, b"", &mut src, budget)
}

/// Whether a mail opened to this one message, or was refused for this reason.
fn is_opened(opened: Result<MessageList, MailError>, want: Result<&str, MailError>) -> bool {
    match opened {
        Ok(messages) => match want {
            Ok(text) => messages.len() == 1 && messages.get(0) == Some(text.as_bytes()),
            Err(_) => false,
        },
        Err(error) => match want {
            Ok(_) => false,
            Err(why) => error == why,
        },
    }
}

#[test]
fn mails_under_the_test_kem_have_their_answers(rt: HostRuntime) -> Result<(), Fail> {
    let key = MaskKey::from_bytes(rt.alloc(), &[0; 32])?;
    for &(text, budget, fail_at, want) in masked() {
        let opened = open_masked(rt.alloc(), &key, text, budget, fail_at);
        assert!(rt; is_opened(opened, want));
    }
    Ok(())
}

/// A run whose contract is the headline is a run.
#[test]
fn the_headline_is_a_run(rt: HostRuntime) -> Result<(), Fail> {
    let words = words_of(rt.alloc(), OPEN)?;
    let mut src = MemSource::new(input(rt.alloc(), MESSAGES_INPUT)?, 7, Vec::new(rt.alloc()));
    let mut out = MemSink::new(rt.alloc(), Vec::new(rt.alloc()));
    let status = headline::<Sha2Hash, MemSource, MemSink>(rt.alloc(), &words, &mut src, &mut out);
    assert!(rt; status == 0 && out.bytes() == OPENED.as_bytes());
    Ok(())
}

/// So is that over memory, whose sink has no write that is to fail.
#[test]
fn the_headline_over_memory_is_a_run(rt: HostRuntime) -> Result<(), Fail> {
    let words = words_of(rt.alloc(), OPEN)?;
    let mut src = CleanSource::new(input(rt.alloc(), MESSAGES_INPUT)?);
    let mut out = MemSink::new(rt.alloc(), Vec::new(rt.alloc()));
    assert!(rt; out.fail_at().is_empty());
    let status = headline_over_memory::<Sha2Hash>(rt.alloc(), &words, &mut src, &mut out);
    assert!(rt; status == 0 && out.bytes() == OPENED.as_bytes());
    Ok(())
}
