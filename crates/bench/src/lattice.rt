//! The lattice KEM over the family of SHA-2, for its three sets, and over the family of SHA-3 at 768.

use crate::sha256;
use crate::stopwatch::{Work, fastest};
use anyhow::{Result, ensure};
use kem_hash::{KemHash, Sha2Hash};
use ml_kem::{
    Ciphertext, DecapsulationKey, MlKem512, MlKem768, MlKem1024, ParameterSet, SharedKey,
};
use sha3_family::Sha3Hash;
use std::alloc::Global;
use std::time::CpuClock;

/// How many calls make a trial.
const RUNS: u32 = 8;

/// A call of the KEM.
#[derive(Clone, Copy, Debug)]
enum Call {
    FromSeed,
    Encapsulate,
    Decapsulate,
}

/// One call, made over and over.
#[derive(Drop)]
struct Calls<P: ParameterSet, H: KemHash> {
    alloc: Global,
    call: Call,
    key: DecapsulationKey<P, H>,
    ciphertext: Ciphertext<P>,
    shared: SharedKey,
}

impl<P: ParameterSet, H: KemHash> Calls<P, H> {
    fn new(alloc: Global, call: Call) -> Result<Calls<P, H>> {
        let key = DecapsulationKey::<P, H>::from_seed(alloc, &[3; 64])?;
        let made = key.encapsulation_key().encapsulate_deterministic(&[4; 32])?;
        let (ciphertext, shared) = made;
        Ok(Calls {
            alloc,
            call,
            key,
            ciphertext,
            shared,
        })
    }
}

impl<P: ParameterSet, H: KemHash> Work for Calls<P, H> {
    fn run(&mut self) -> Result<()> {
        match self.call {
            Call::FromSeed => self.key = DecapsulationKey::from_seed(self.alloc, &[3; 64])?,
            Call::Encapsulate => {
                let key = self.key.encapsulation_key();
                let made = key.encapsulate_deterministic(&self.shared)?;
                let (_ciphertext, shared) = made;
                self.shared = shared;
            }
            Call::Decapsulate => {
                let shared = self.key.decapsulate(&self.ciphertext)?;
                ensure!(shared == self.shared, "another secret");
            }
        }
        Ok(())
    }
}

fn print_set<P: ParameterSet, H: KemHash>(
    rt: &(impl Print + CpuClock + AllocGlobal),
    name: &str,
) -> Result<()> {
    for call in [Call::FromSeed, Call::Encapsulate, Call::Decapsulate] {
        let mut calls = Calls::<P, H>::new(rt.alloc(), call)?;
        let time = fastest(rt, &mut calls, RUNS)?;
        println!(rt; "{name} {call:?}: {} us", time.micros())?;
    }
    Ok(())
}

/// Prints the times of SHA-256, of the three sets, and of one over the other family.
pub fn print_all(rt: &(impl Print + CpuClock + AllocGlobal)) -> Result<()> {
    sha256::print_one(rt)?;
    print_set::<MlKem512, Sha2Hash>(rt, "ML-KEM-512")?;
    print_set::<MlKem768, Sha2Hash>(rt, "ML-KEM-768")?;
    print_set::<MlKem1024, Sha2Hash>(rt, "ML-KEM-1024")?;
    print_set::<MlKem768, Sha3Hash>(rt, "ML-KEM-768 over SHA-3")
}
