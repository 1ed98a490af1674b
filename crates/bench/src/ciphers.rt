//! AES-GCM in place under keys of both sizes. What a trial made is used after it, so that the compiler
//! leaves none of the work out.

use crate::sha256;
use crate::stopwatch::{Work, fastest};
use anyhow::Result;
use gcm_core::{AesGcm128Impl, AesGcm256Impl};
use std::alloc::Global;
use std::time::CpuClock;

/// The lengths of the texts in bytes, each with how many runs make a trial.
const SIZES: [(usize, u32); 4] = [(64, 8192), (1024, 1024), (16384, 64), (1 << 20, 1)];

/// How many runs of `new` make a trial.
const KEYS: u32 = 4096;

const KEY: [u8; 32] = [1; 32];

const NONCE: [u8; 12] = [7; 12];

/// An AEAD of either key size.
trait Cipher: Sized + Drop {
    const NAME: &'static str;

    /// The AEAD under the front of these bytes.
    fn new(key: &[u8; 32]) -> Self;

    fn seal(&self, buf: &mut [u8], tag: &mut [u8; 16]) -> Result<()>;

    fn open(&self, buf: &mut [u8], tag: &[u8; 16]) -> Result<()>;
}

impl Cipher for AesGcm128Impl {
    const NAME: &'static str = "AES-128-GCM";

    fn new(key: &[u8; 32]) -> Self {
        let mut front = [0; 16];
        front.copy_from_slice(&key[..16]);
        AesGcm128Impl::new(&front)
    }

    fn seal(&self, buf: &mut [u8], tag: &mut [u8; 16]) -> Result<()> {
        Ok(self.seal_in_place(&NONCE, &[], buf, tag)?)
    }

    fn open(&self, buf: &mut [u8], tag: &[u8; 16]) -> Result<()> {
        Ok(self.open_in_place(&NONCE, &[], buf, tag)?)
    }
}

impl Cipher for AesGcm256Impl {
    const NAME: &'static str = "AES-256-GCM";

    fn new(key: &[u8; 32]) -> Self {
        AesGcm256Impl::new(key)
    }

    fn seal(&self, buf: &mut [u8], tag: &mut [u8; 16]) -> Result<()> {
        Ok(self.seal_in_place(&NONCE, &[], buf, tag)?)
    }

    fn open(&self, buf: &mut [u8], tag: &[u8; 16]) -> Result<()> {
        Ok(self.open_in_place(&NONCE, &[], buf, tag)?)
    }
}

/// A cipher that is made over and over.
#[derive(Drop)]
struct Keying<C: Cipher> {
    key: [u8; 32],
    cipher: C,
}

impl<C: Cipher> Work for Keying<C> {
    fn run(&mut self) -> Result<()> {
        self.cipher = C::new(&self.key);
        Ok(())
    }
}

/// A text that is sealed over and over.
#[derive(Drop)]
struct Sealing<C: Cipher> {
    cipher: C,
    buf: Vec<u8>,
    tag: [u8; 16],
}

impl<C: Cipher> Work for Sealing<C> {
    fn run(&mut self) -> Result<()> {
        self.cipher.seal(self.buf.as_mut_slice(), &mut self.tag)
    }
}

/// A sealed text that is opened in a copy.
#[derive(Drop)]
struct Opening<C: Cipher> {
    cipher: C,
    sealed: Vec<u8>,
    tag: [u8; 16],
    buf: Vec<u8>,
}

impl<C: Cipher> Opening<C> {
    /// The opening of a text of this many bytes, which is sealed first.
    fn new(alloc: Global, size: usize) -> Result<Opening<C>> {
        let cipher = C::new(&KEY);
        let mut sealed = vec![in alloc; 5; size]?;
        let mut tag = [0; 16];
        cipher.seal(sealed.as_mut_slice(), &mut tag)?;
        let buf = Vec::with_capacity(alloc, size)?;
        Ok(Opening {
            cipher,
            sealed,
            tag,
            buf,
        })
    }
}

impl<C: Cipher> Work for Opening<C> {
    fn run(&mut self) -> Result<()> {
        self.buf.clear();
        self.buf.extend_from_slice(self.sealed.as_slice())?;
        self.cipher.open(self.buf.as_mut_slice(), &self.tag)
    }
}

fn print_sealing<C: Cipher>(
    rt: &(impl Print + CpuClock + AllocGlobal),
    size: usize,
    runs: u32,
) -> Result<()> {
    let mut sealing = Sealing {
        cipher: C::new(&KEY),
        buf: vec![in rt.alloc(); 5; size]?,
        tag: [0; 16],
    };
    let time = fastest(rt, &mut sealing, runs)?;
    let Sealing {
        cipher,
        mut buf,
        tag,
    } = sealing;
    cipher.open(buf.as_mut_slice(), &tag)?;
    println!(rt; "{} seal {size}: {} MB/s", C::NAME, time.megabytes(size))?;
    Ok(())
}

fn print_opening<C: Cipher>(
    rt: &(impl Print + CpuClock + AllocGlobal),
    size: usize,
    runs: u32,
) -> Result<()> {
    let mut opening = Opening::<C>::new(rt.alloc(), size)?;
    let time = fastest(rt, &mut opening, runs)?;
    println!(rt; "{} open {size}: {} MB/s", C::NAME, time.megabytes(size))?;
    Ok(())
}

fn print_keying<C: Cipher>(rt: &(impl Print + CpuClock)) -> Result<()> {
    let mut keying = Keying {
        key: KEY,
        cipher: C::new(&KEY),
    };
    let mut tag = [0; 16];
    keying.cipher.seal(&mut [], &mut tag)?;
    let time = fastest(rt, &mut keying, KEYS)?;
    keying.cipher.open(&mut [], &tag)?;
    println!(rt; "{} new: {} us", C::NAME, time.micros())?;
    Ok(())
}

fn print_cipher<C: Cipher>(rt: &(impl Print + CpuClock + AllocGlobal)) -> Result<()> {
    print_keying::<C>(rt)?;
    for (size, runs) in SIZES {
        print_sealing::<C>(rt, size, runs)?;
        print_opening::<C>(rt, size, runs)?;
    }
    Ok(())
}

/// Prints the times of SHA-256 and of both ciphers.
pub fn print_all(rt: &(impl Print + CpuClock + AllocGlobal)) -> Result<()> {
    for (size, runs) in SIZES {
        sha256::print_size(rt, size, runs)?;
    }
    print_cipher::<AesGcm128Impl>(rt)?;
    print_cipher::<AesGcm256Impl>(rt)
}
