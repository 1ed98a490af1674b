//! Sources and a sink over memory.

ghost use Rattle.std.specs.Prelude.{◌≡◌, ◌↔◌, ◌≤◌, ◌<◌, ◌+◌, ◌⊎◌, ◌++◌, ℕ, List, [], true, false, length, take, drop, min, Contains, Option, Some, None, Ok, IfOk, OnErr, OnOk, IsErr, IsOk, IsTrue};
ghost use Rattle.age_format.specs.Outside.{Rose, Gives, Gains, next_count};

use super::{Failed, Sink, Source};
use std::alloc::Global;
use std::marker::Model;

/// A source of given bytes, which gives at most so many at once and fails at given reads.
#[derive(Drop)]
pub struct MemSource {
    bytes: Vec<u8>,
    at: usize,
    piece: usize,
    fail_at: Vec<u64>,
    reads: u64,
    faults: u64,
}

impl Model for MemSource {
    ghost use Rattle.std.specs.Prelude.{◌≤◌, drop, vec_len};
    ghost use Rattle.age_format.specs.Outside.{MemoryLeft};

    ghost Value = { MemoryLeft };

    ghost view = { λ s. record { left = drop s.at s.bytes.items; piece = s.piece; fail_at = s.fail_at.items; reads = s.reads; faults = s.faults } };

    ghost invariant = { λ s. (s.at ≤ vec_len s.bytes) × (1 ≤ s.piece) };
}

impl MemSource {
    /// A source of these bytes. Each read gives at most `piece` of them; the reads whose number
    /// from 0 stands in `fail_at` fail, and no others.
    pub fn new(bytes: Vec<u8>, piece: usize, fail_at: Vec<u64>) -> MemSource
        requires { 1 ≤ piece }
        ensures { result ≡ record { left = bytes.items; piece = piece; fail_at = fail_at.items; reads = 0; faults = 0 } }
    {
        MemSource {
            bytes,
            at: 0,
            piece,
            fail_at,
            reads: 0,
            faults: 0,
        }
    }

    /// How many calls of `read` there were. The count stands still at 2 ^ 64 - 1.
    pub fn reads(&self) -> u64
        ensures { result ≡ self.now.reads }
    {
        self.reads
    }
}

impl Source for MemSource {
    ghost left = { λ s. Some s.left };

    ghost faults = { λ s. s.faults };

    fn read(&mut self, buffer: &mut [u8]) -> Result<usize, Failed>
        // Which reads fail, and what the others give.
        ensures listed { IsErr result ↔ Contains self.old.fail_at self.old.reads }
        ensures given { IfOk result (λ n. n ≡ min (length buffer.old) (min self.old.piece (length self.old.left))) }
        ensures front { IfOk result (λ n. take n buffer.new ≡ take n self.old.left) }

        // What stands afterwards.
        ensures ok { IfOk result (λ n. self.new ≡ record self.old {
          left = drop n self.old.left;
          reads = next_count self.old.reads;
        }) }
        ensures err { OnErr result (self.new ≡ record self.old {
          reads = next_count self.old.reads;
          faults = next_count self.old.faults;
        }) }

        ensures count { IfOk result (λ n. n ≤ length buffer.old) }
        ensures told { IfOk result (λ n. Gives (Some self.old.left) (Some self.new.left) n buffer.new) }
        ensures behind { IfOk result (λ n. drop n buffer.new ≡ drop n buffer.old) }
        ensures no_fault { OnOk result (self.new.faults ≡ self.old.faults) }
        ensures failed { OnErr result (Rose self.old.faults self.new.faults) }
        ensures untaken { OnErr result (Some self.new.left ≡ Some self.old.left) }
        ensures untouched { OnErr result (buffer.new ≡ buffer.old) }
        ensures faults { self.old.faults ≤ self.new.faults }
    {
        let number = self.reads;
        self.reads = number.saturating_add(1);
        if self.fail_at.contains(&number) {
            self.faults = self.faults.saturating_add(1);
            return Err(Failed);
        }
        let n = buffer.len().min(self.piece.min(self.bytes.len() - self.at));
        buffer[..n].copy_from_slice(&self.bytes[self.at..self.at + n]);
        self.at += n;
        Ok(n)
    }
}

/// A source of given bytes that never fails.
#[derive(Drop)]
pub struct CleanSource {
    bytes: Vec<u8>,
    at: usize,
}

impl Model for CleanSource {
    ghost use Rattle.std.specs.Prelude.{◌≤◌, ℕ, List, drop, vec_len};

    ghost Value = { List ℕ };

    ghost view = { λ s. drop s.at s.bytes.items };

    ghost invariant = { λ s. s.at ≤ vec_len s.bytes };
}

impl CleanSource {
    /// A source of these bytes.
    pub fn new(bytes: Vec<u8>) -> CleanSource
        ensures { result ≡ bytes.items }
    {
        CleanSource { bytes, at: 0 }
    }
}

impl Source for CleanSource {
    ghost left = { λ s. Some s };

    ghost faults = { λ _. 0 };

    fn read(&mut self, buffer: &mut [u8]) -> Result<usize, Failed>
        ensures succeeds { IsOk result }
        ensures given { IfOk result (λ n. n ≡ min (length buffer.old) (length self.old)) }
        ensures front { IfOk result (λ n. take n buffer.new ≡ take n self.old) }
        ensures ok { IfOk result (λ n. self.new ≡ drop n self.old) }

        ensures count { IfOk result (λ n. n ≤ length buffer.old) }
        ensures told { IfOk result (λ n. Gives (Some self.old) (Some self.new) n buffer.new) }
        ensures behind { IfOk result (λ n. drop n buffer.new ≡ drop n buffer.old) }
        ensures failed { OnErr result (Rose 0 0) }
        ensures untaken { OnErr result (Some self.new ≡ Some self.old) }
        ensures faults { 0 ≤ 0 }
    {
        let n = buffer.len().min(self.bytes.len() - self.at);
        buffer[..n].copy_from_slice(&self.bytes[self.at..self.at + n]);
        self.at += n;
        Ok(n)
    }
}

/// A sink that holds what it got, and fails at given writes and where it finds no memory.
#[derive(Drop)]
pub struct MemSink {
    bytes: Vec<u8>,
    fail_at: Vec<u64>,
    writes: u64,
    faults: u64,
    ran_out: bool,
}

impl Model for MemSink {
    ghost use Rattle.std.specs.Prelude.{◌≡◌, ◌↔◌, ◌<◌, [], true, vec_capacity};
    ghost use Rattle.age_format.specs.Outside.{MemoryGot};

    ghost Value = { MemoryGot };

    ghost view = { λ s. record { got = s.bytes.items; capacity = vec_capacity s.bytes; fail_at = s.fail_at.items; writes = s.writes; faults = s.faults; ran_out = s.ran_out } };

    // With no write that is to fail, a fault is want of memory.
    ghost invariant = { λ s. s.fail_at.items ≡ [] → (0 < s.faults) ↔ (s.ran_out ≡ true) };
}

impl MemSink {
    /// An empty sink, which fails at the writes whose number from 0 stands in `fail_at`, where it
    /// finds no memory, and nowhere else.
    pub fn new(alloc: Global, fail_at: Vec<u64>) -> MemSink
        ensures { result ≡ record { got = []; capacity = 0; fail_at = fail_at.items; writes = 0; faults = 0; ran_out = false } }
    {
        MemSink {
            bytes: Vec::new(alloc),
            fail_at,
            writes: 0,
            faults: 0,
            ran_out: false,
        }
    }

    /// Which writes are to fail, by their numbers from 0. With none, only want of memory is a fault.
    pub fn fail_at(&self) -> &[u64]
        ensures { result.now ≡ self.now.fail_at }
    {
        self.fail_at.as_slice()
    }

    /// What the sink got.
    pub fn bytes(&self) -> &[u8]
        ensures { result.now ≡ self.now.got }
    {
        self.bytes.as_slice()
    }

    /// Whether a write found no memory.
    pub fn ran_out(&self) -> bool
        ensures value { result ≡ self.now.ran_out }
        // With no write that is to fail, a fault is want of memory.
        ensures only { self.now.fail_at ≡ [] → (0 < self.now.faults) ↔ IsTrue result }
    {
        self.ran_out
    }
}

impl Sink for MemSink {
    ghost got = { λ s. Some s.got };

    ghost faults = { λ s. s.faults };

    ghost plan = { λ s. s.fail_at };

    fn write(&mut self, piece: &[u8]) -> Result<usize, Failed>
        // Which writes fail: those of the plan, and those that needed memory and found none.
        ensures listed { Contains self.old.fail_at self.old.writes → IsErr result }
        ensures others { IsErr result → Contains self.old.fail_at self.old.writes
            ⊎ ((self.old.capacity < length self.old.got + length piece.now) × (self.new.ran_out ≡ true)) }
        ensures all { IfOk result (λ n. n ≡ length piece.now) }

        // What stands afterwards.
        ensures ok { OnOk result (self.new ≡ record self.old {
          got = self.old.got ++ piece.now;
          capacity = self.new.capacity;
          writes = next_count self.old.writes;
        }) }
        ensures err { OnErr result (self.new ≡ record self.old {
          writes = next_count self.old.writes;
          faults = next_count self.old.faults;
          capacity = self.new.capacity;
          ran_out = self.new.ran_out;
        }) }
        ensures room { self.old.capacity ≤ self.new.capacity }
        ensures kept { Contains self.old.fail_at self.old.writes → self.new.ran_out ≡ self.old.ran_out }

        ensures count { IfOk result (λ n. n ≤ length piece.now) }
        ensures some { IfOk result (λ n. 0 < length piece.now → 0 < n) }
        ensures told { IfOk result (λ n. Gains (Some self.old.got) (Some self.new.got) (take n piece.now)) }
        ensures no_fault { OnOk result (self.new.faults ≡ self.old.faults) }
        ensures failed { OnErr result (Rose self.old.faults self.new.faults) }
        ensures untaken { OnErr result (Some self.new.got ≡ Some self.old.got) }
        ensures plan { self.new.fail_at ≡ self.old.fail_at }
        ensures faults { self.old.faults ≤ self.new.faults }
    {
        let number = self.writes;
        self.writes = number.saturating_add(1);
        if self.fail_at.contains(&number) {
            self.faults = self.faults.saturating_add(1);
            return Err(Failed);
        }
        if self.bytes.extend_from_slice(piece).is_err() {
            self.faults = self.faults.saturating_add(1);
            self.ran_out = true;
            return Err(Failed);
        }
        Ok(piece.len())
    }
}

/// A sink that takes every piece and drops it. It tells nothing, and never fails.
#[derive(Drop)]
pub struct NoSink;

impl NoSink {
    /// A sink that takes everything.
    pub fn new() -> NoSink {
        NoSink
    }
}

impl Sink for NoSink {
    ghost got = { λ _. None };

    ghost faults = { λ _. 0 };

    ghost plan = { λ _. [] };

    fn write(&mut self, piece: &[u8]) -> Result<usize, Failed>
        ensures all { result ≡ Ok (length piece.now) }

        ensures count { IfOk result (λ n. n ≤ length piece.now) }
        ensures some { IfOk result (λ n. 0 < length piece.now → 0 < n) }
        ensures failed { OnErr result (Rose 0 0) }
    {
        Ok(piece.len())
    }
}
