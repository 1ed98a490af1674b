//! Mails in memory at the set 768, SHA-256 and AES-256: sealed, opened and their stanzas read, and beside them
//! the two things that take most of that, AES-256-GCM over the same messages and Base64 over the same bodies.

use crate::sha256;
use crate::stopwatch::{Work, fastest};
use age_format::StanzaReader;
use age_format::format::Stanza;
use age_format::outside::{CleanSource, MemSink};
use anyhow::{Result, bail, ensure};
use base64::engine::general_purpose::STANDARD_NO_PAD;
use gcm_core::AesGcm256Impl;
use hpke::{AesGcm256, HkdfSha256};
use kem_hash::{KemHash, Sha2Hash};
use kem_mail::{MessageList, open_mail, seal_mail};
use ml_kem::{DecapsulationKey, MlKem768, ParameterSet, Seed};
use rand_chacha::ChaCha20Rng;
use rand_core::{Rng, SeedableRng};
use std::alloc::{AllocError, Global};
use std::time::CpuClock;

/// The bytes of a message and the messages of a mail, so that its text has 16 million bytes or so.
const SHAPES: [(usize, usize); 2] = [(30_000, 400), (100, 90_000)];

const SEED: Seed = [3; 64];

/// More bytes than a mail has here.
const BUDGET: u64 = 1 << 26;

/// As many messages of one length.
fn messages(alloc: Global, size: usize, count: usize) -> Result<MessageList, AllocError> {
    let mut items = Vec::new(alloc);
    for _ in 0..count {
        items.push(vec![in alloc; 5; size]?)?;
    }
    Ok(MessageList::from_vecs(items))
}

/// Whether a mail of the messages was sealed.
fn is_sealed<P: ParameterSet, H: KemHash, R: Rng>(
    alloc: Global,
    key: &DecapsulationKey<P, H>,
    messages: &MessageList,
    rng: &mut R,
    sink: &mut MemSink,
) -> bool {
    let key = key.encapsulation_key();
    seal_mail::<P, H, HkdfSha256, AesGcm256, R, MemSink>(
        alloc,
        key,
        &[],
        messages,
        rng,
        sink,
    ).is_ok()
}

/// How many messages the mail of a source holds, or none where it isn't opened.
fn opened(alloc: Global, seed: &Seed, source: &mut CleanSource) -> Option<usize> {
    let outcome = open_mail::<MlKem768, Sha2Hash, HkdfSha256, AesGcm256, CleanSource>(
        alloc,
        seed,
        &[],
        source,
        BUDGET,
    );
    match outcome {
        Ok(list) => Some(list.len()),
        Err(_) => None,
    }
}

/// The body of the next stanza, or none of the one that ends a mail.
fn next_body(reader: &mut StanzaReader, source: &mut CleanSource) -> Result<Option<Vec<u8>>> {
    let Ok(stanza) = reader.receive_from(source) else {
        bail!("no stanza");
    };
    if stanza.has_tag("done") {
        return Ok(None);
    }
    let Stanza {
        tag: _,
        args: _,
        body,
    } = stanza;
    Ok(Some(body))
}

/// A mail that is sealed over and over.
#[derive(Drop)]
struct Sealing<P: ParameterSet, H: KemHash> {
    alloc: Global,
    key: DecapsulationKey<P, H>,
    messages: MessageList,
    sink: MemSink,
}

impl<P: ParameterSet, H: KemHash> Sealing<P, H> {
    /// The sealing of as many messages of one length.
    fn new(alloc: Global, size: usize, count: usize) -> Result<Sealing<P, H>> {
        let key = DecapsulationKey::from_seed(alloc, &SEED)?;
        let messages = messages(alloc, size, count)?;
        let sink = MemSink::new(alloc, Vec::new(alloc));
        Ok(Sealing {
            alloc,
            key,
            messages,
            sink,
        })
    }

    /// The mail that was sealed last.
    fn text(&self) -> Result<Vec<u8>> {
        Ok(self.sink.bytes().to_vec(self.alloc)?)
    }
}

impl<P: ParameterSet, H: KemHash> Work for Sealing<P, H> {
    fn prepare(&mut self) -> Result<()> {
        self.sink = MemSink::new(self.alloc, Vec::new(self.alloc));
        Ok(())
    }

    fn run(&mut self) -> Result<()> {
        let mut rng = ChaCha20Rng::from_seed([9; 32]);
        let sealed = is_sealed(
            self.alloc,
            &self.key,
            &self.messages,
            &mut rng,
            &mut self.sink,
        );
        ensure!(sealed, "not sealed");
        Ok(())
    }
}

/// A mail that is opened over and over.
#[derive(Drop)]
struct Opening {
    alloc: Global,
    text: Vec<u8>,
    source: CleanSource,
    count: usize,
}

impl Work for Opening {
    fn prepare(&mut self) -> Result<()> {
        self.source = CleanSource::new(self.text.clone()?);
        Ok(())
    }

    fn run(&mut self) -> Result<()> {
        let count = opened(self.alloc, &SEED, &mut self.source);
        ensure!(count == Some(self.count), "not opened");
        Ok(())
    }
}

/// A mail whose stanzas are read over and over, each dropped at once.
#[derive(Drop)]
struct Reading {
    alloc: Global,
    text: Vec<u8>,
    source: CleanSource,
}

impl Work for Reading {
    fn prepare(&mut self) -> Result<()> {
        self.source = CleanSource::new(self.text.clone()?);
        Ok(())
    }

    fn run(&mut self) -> Result<()> {
        let mut reader = StanzaReader::new(self.alloc, BUDGET);
        for _ in 0..BUDGET {
            if next_body(&mut reader, &mut self.source)?.is_none() {
                return Ok(());
            }
        }
        bail!("no end")
    }
}

/// The bodies of a mail as one text, decoded over and over.
#[derive(Drop)]
struct Decoding {
    alloc: Global,
    text: Vec<u8>,
    size: usize,
}

impl Work for Decoding {
    fn run(&mut self) -> Result<()> {
        let bytes = STANDARD_NO_PAD.decode(self.alloc, self.text.as_slice())?;
        ensure!(bytes.len() == self.size, "not decoded");
        Ok(())
    }
}

/// Messages that AES-256-GCM alone seals over and over, all in one place.
#[derive(Drop)]
struct Ciphering {
    cipher: AesGcm256Impl,
    message: Vec<u8>,
    count: usize,
    tag: [u8; 16],
}

impl Work for Ciphering {
    fn run(&mut self) -> Result<()> {
        for _ in 0..self.count {
            self.cipher
                .seal_in_place(&[7; 12], &[], &mut self.message, &mut self.tag)?;
        }
        Ok(())
    }
}

/// The bodies of a mail, one behind the other.
fn bodies(alloc: Global, text: &[u8]) -> Result<Vec<u8>> {
    let mut source = CleanSource::new(text.to_vec(alloc)?);
    let mut reader = StanzaReader::new(alloc, BUDGET);
    let mut bodies = Vec::new(alloc);
    for _ in 0..BUDGET {
        match next_body(&mut reader, &mut source)? {
            Some(body) => bodies.extend_from_slice(body.as_slice())?,
            None => return Ok(bodies),
        }
    }
    bail!("no end")
}

/// Prints the time of sealing, and answers the mail.
fn print_sealing<P: ParameterSet, H: KemHash>(
    rt: &(impl Print + CpuClock + AllocGlobal),
    size: usize,
    count: usize,
) -> Result<Vec<u8>> {
    let mut sealing = Sealing::<P, H>::new(rt.alloc(), size, count)?;
    let time = fastest(rt, &mut sealing, 1)?;
    println!(rt;
        "{count} messages of {size}, seal_mail: {} us",
        time.micros()
    )?;
    sealing.text()
}

/// Prints the time of opening.
fn print_opening(
    rt: &(impl Print + CpuClock + AllocGlobal),
    text: &[u8],
    count: usize,
) -> Result<()> {
    let alloc = rt.alloc();
    let mut opening = Opening {
        alloc,
        text: text.to_vec(alloc)?,
        source: CleanSource::new(Vec::new(alloc)),
        count,
    };
    let time = fastest(rt, &mut opening, 1)?;
    println!(rt; "  open_mail: {} us", time.micros())?;
    Ok(())
}

/// Prints the time of reading.
fn print_reading(rt: &(impl Print + CpuClock + AllocGlobal), text: &[u8]) -> Result<()> {
    let alloc = rt.alloc();
    let mut reading = Reading {
        alloc,
        text: text.to_vec(alloc)?,
        source: CleanSource::new(Vec::new(alloc)),
    };
    let time = fastest(rt, &mut reading, 1)?;
    println!(rt; "  reading its stanzas: {} us", time.micros())?;
    Ok(())
}

/// Prints the time of Base64 alone.
fn print_decoding(rt: &(impl Print + CpuClock + AllocGlobal), text: &[u8]) -> Result<()> {
    let alloc = rt.alloc();
    let bodies = bodies(alloc, text)?;
    let encoded = STANDARD_NO_PAD.encode(alloc, bodies.as_slice())?;
    let mut decoding = Decoding {
        alloc,
        text: encoded.into_bytes(),
        size: bodies.len(),
    };
    let time = fastest(rt, &mut decoding, 1)?;
    println!(rt; "  Base64 alone: {} us", time.micros())?;
    Ok(())
}

/// Prints the time of AES-256-GCM alone.
fn print_ciphering(
    rt: &(impl Print + CpuClock + AllocGlobal),
    size: usize,
    count: usize,
) -> Result<()> {
    let mut ciphering = Ciphering {
        cipher: AesGcm256Impl::new(&[1; 32]),
        message: vec![in rt.alloc(); 5; size]?,
        count,
        tag: [0; 16],
    };
    let time = fastest(rt, &mut ciphering, 1)?;
    println!(rt; "  AES-256-GCM alone: {} us", time.micros())?;
    Ok(())
}

/// Prints the times of SHA-256 and of mails of both shapes.
pub fn print_all(rt: &(impl Print + CpuClock + AllocGlobal)) -> Result<()> {
    sha256::print_one(rt)?;
    for (size, count) in SHAPES {
        let text = print_sealing::<MlKem768, Sha2Hash>(rt, size, count)?;
        print_opening(rt, text.as_slice(), count)?;
        print_ciphering(rt, size, count)?;
        print_reading(rt, text.as_slice())?;
        print_decoding(rt, text.as_slice())?;
    }
    Ok(())
}
