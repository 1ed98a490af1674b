//! Bytes that are due and not yet handed to the sink: many short lines are handed over at once. No call
//! takes memory.

ghost use Rattle.std.specs.Prelude.{◌≡◌, ◌≤◌, ◌+◌, ◌*◌, ◌++◌, ◌∷◌, [], length, OnOk};
ghost use Rattle.hex.specs.Hex.{encode_lower};
ghost use Rattle.age_format.specs.Outside.{Writes};
ghost use Rattle.output_lines.specs.private.Holding.{Passes};

use age_format::outside::{Failed, Sink, write_all};
use std::marker::Model;

// The most bytes that are handed over at once.
pub const PIECE: usize = 4096;

/// The bytes that are next for the sink, [`PIECE`] at most.
#[derive(Drop)]
pub struct Pending {
    bytes: [u8; PIECE],
    len: usize,
}

impl Model for Pending {
    ghost use Rattle.std.specs.Prelude.{ℕ, List, ◌≤◌, take};

    ghost Value = { List ℕ };

    ghost view = { λ pending. take pending.len pending.bytes };

    ghost invariant = { λ pending. pending.len ≤ 4096 };
}

impl Pending {
    // Nothing yet.
    pub fn new() -> Pending
        ensures { result ≡ [] }
    {
        Pending {
            bytes: [0; PIECE],
            len: 0,
        }
    }

    // Hands all over.
    pub fn hand_over<W: Sink>(&mut self, out: &mut W) -> Result<(), Failed>
        ensures written { Writes W.got W.faults W.plan out.old out.new result self.old }
        ensures nothing { OnOk result (self.new ≡ []) }
    {
        write_all(out, &self.bytes[..self.len])?;
        self.len = 0;
        Ok(())
    }

    // Makes room for so many bytes, [`PIECE`] at most: where there is none, it hands all over.
    pub fn make_room<W: Sink>(&mut self, out: &mut W, count: usize) -> Result<(), Failed>
        requires { count ≤ PIECE }
        ensures handed { Passes W.got W.faults W.plan out.old out.new self.old self.new result [] }
        ensures room { OnOk result (length self.new + count ≤ PIECE) }
    {
        if PIECE - self.len < count {
            self.hand_over(out)?;
        }
        Ok(())
    }

    // Appends the lower-case hexadecimal digits of bytes, for which there is room.
    pub fn push_digits(&mut self, bytes: &[u8])
        requires { length self.old + 2 * length bytes.now ≤ PIECE }
        ensures { self.new ≡ self.old ++ encode_lower bytes.now }
    {
        let end = self.len + 2 * bytes.len();
        let Ok(()) = hex::encode_to_slice(bytes, &mut self.bytes[self.len..end]) else {
            unreachable!();
        };
        self.len = end;
    }

    // Appends a byte, for which there is room.
    pub fn push(&mut self, byte: u8)
        requires { length self.old + 1 ≤ PIECE }
        ensures { self.new ≡ self.old ++ byte ∷ [] }
    {
        self.bytes[self.len] = byte;
        self.len += 1;
    }
}
