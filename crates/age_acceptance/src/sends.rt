//! A source that counts, and one call of each public function.

ghost use Rattle.std.specs.Prelude.{ℕ, ◌+◌, ◌^◌, ◌%◌};
ghost use Rattle.rand_core.specs.Steps.{stream_of, steps_u32};

use age_format::format::Stanza;
use age_format::outside::MemSink;
use age_send::write::age_stanza;
use age_send::{finish_to, grease_the_joint, roll, send_stanza_to, send_to};
use rand_core::Rng;
use rand_core::utils::{self, NextWord};
use std::alloc::Global;
use std::marker::Model;
use std::test::Fail;

/// A source of the words n, n + 1, n + 2 and so on.
#[derive(Drop)]
pub struct Counting(u32);

impl Model for Counting {
    ghost Value = { ℕ };

    ghost view = { λ counting. counting.0 };
}

impl NextWord<u32> for Counting {
    ghost step = { λ n. (n, (n + 1) % 2 ^ 32) };

    fn next_word(&mut self) -> u32 {
        let word = self.0;
        self.0 = word.wrapping_add(1);
        word
    }
}

impl Rng for Counting {
    ghost stream = { stream_of (steps_u32 (λ n. (n, (n + 1) % 2 ^ 32))) };

    fn next_u32(&mut self) -> u32 {
        self.next_word()
    }

    fn next_u64(&mut self) -> u64 {
        utils::next_u64_via_u32(self)
    }

    fn fill_bytes(&mut self, dst: &mut [u8]) {
        utils::fill_bytes_via_u32(self, dst)
    }
}

// A sink over memory that never fails.
fn sink(alloc: Global) -> MemSink {
    MemSink::new(alloc, Vec::new(alloc))
}

#[test]
fn a_stanza_is_spelled(rt: HostRuntime) -> Result<(), Fail> {
    let alloc = rt.alloc();
    let mut out = sink(alloc);
    let args = [String::from_str(alloc, "foo")?];
    assert!(rt; age_stanza(&mut out, "test", &args, b"bar").is_ok());
    assert!(rt; age_stanza(&mut out, "zeros", &[], &[0; 49]).is_ok());
    assert!(rt;
        out.bytes()
            == b"-> test foo\nYmFy\n-> zeros\nAAAAAAAAAAAAAAAAAAAAAAAAAAAAAAAAAAAAAAAAAAAAAAAAAAAAAAAAAAAAAAAA\nAA\n".as_slice()
    );
    Ok(())
}

// Whether this is the grease of the words from 5 on.
fn is_grease_from_5(grease: &Stanza) -> bool {
    grease.has_tag("'()*+,-grease")
        && grease.args.len() == 2
        && grease.args[0].as_str() == "/01234"
        && grease.args[1].as_str() == "6789:"
        && grease.body.len() == 26
        && grease.body[24] == 33
        && grease.body[25] == 0
}

#[test]
fn grease_counts(rt: HostRuntime) -> Result<(), Fail> {
    let alloc = rt.alloc();
    let mut counting = Counting(5);
    let grease = grease_the_joint(alloc, &mut counting)?;
    assert!(rt; is_grease_from_5(&grease));
    assert!(rt; counting.next_u32() == 34);
    Ok(())
}

#[test]
fn sends_without_grease(rt: HostRuntime) -> Result<(), Fail> {
    let alloc = rt.alloc();
    let mut out = sink(alloc);
    let mut counting = Counting(5);
    let metadata = [String::from_str(alloc, "foo")?];
    assert!(rt; send_to(alloc, &mut out, &mut counting, "test", &metadata, b"bar").is_ok());
    assert!(rt; finish_to(alloc, &mut out, &mut counting).is_ok());
    assert!(rt; out.bytes() == b"-> test foo\nYmFy\n-> done\n\n".as_slice());
    assert!(rt; counting.next_u32() == 9);
    Ok(())
}

#[test]
fn a_stanza_is_sent_under_a_command(rt: HostRuntime) -> Result<(), Fail> {
    let alloc = rt.alloc();
    let mut out = sink(alloc);
    let mut counting = Counting(7);
    assert!(rt; roll(alloc, &mut counting)?.is_none());
    let stanza = Stanza {
        tag: String::from_str(alloc, "test")?,
        args: vec![in alloc; String::from_str(alloc, "foo")?]?,
        body: b"bar".to_vec(alloc)?,
    };
    let metadata = [String::from_str(alloc, "0")?];
    assert!(rt; send_stanza_to(alloc, &mut out, &mut counting, "wrap", &metadata, &stanza).is_ok());
    assert!(rt; out.bytes() == b"-> wrap 0 test foo\nYmFy\n".as_slice());
    Ok(())
}
