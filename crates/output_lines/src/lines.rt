//! Lines that a run writes. No call takes memory.

ghost use Rattle.std.specs.Prelude.{◌≡◌, ◌≤◌, ◌∷◌, ◌++◌, [], length, decimal};
ghost use Rattle.hex.specs.Hex.{encode_lower};
ghost use Rattle.age_format.specs.Outside.{Writes};
ghost use Rattle.output_lines.specs.Lines.{lines, spaced, fault_line};
ghost use Rattle.output_lines.specs.private.Holding.{Passes};

use crate::list::ItemList;
use crate::pending::{PIECE, Pending};
use age_format::outside::{Failed, Sink, write_all};
use itoa::Buffer;

// The most bytes whose digits are appended at once: a piece has room for them.
const CHUNK: usize = PIECE / 2;

// Appends the digits of bytes, [`CHUNK`] at most, to what is next for the sink.
fn write_digits<W: Sink>(out: &mut W, pending: &mut Pending, bytes: &[u8]) -> Result<(), Failed>
    requires { length bytes.now ≤ CHUNK }
    ensures { Passes W.got W.faults W.plan out.old out.new pending.old pending.new result (encode_lower bytes.now) }
{
    pending.make_room(out, 2 * bytes.len())?;
    pending.push_digits(bytes);
    Ok(())
}

// Appends the digits of an item, and a line feed, to what is next for the sink.
fn write_line<W: Sink>(out: &mut W, pending: &mut Pending, item: &[u8]) -> Result<(), Failed>
    ensures { Passes W.got W.faults W.plan out.old out.new pending.old pending.new result (encode_lower item.now ++ 10 ∷ []) }
{
    let mut rest = item;
    while !rest.is_empty() {
        let (front, back) = rest.split_at(rest.len().min(CHUNK));
        write_digits(out, pending, front)?;
        rest = back;
    }
    pending.make_room(out, 1)?;
    pending.push(b'\n');
    Ok(())
}

/// Writes each item as a line.
pub fn write_lines<W: Sink>(out: &mut W, items: &ItemList) -> Result<(), Failed>
    ensures { Writes W.got W.faults W.plan out.old out.new result (lines items.now) }
{
    let mut pending = Pending::new();
    for i in 0..items.len() {
        let Some(item) = items.get(i) else {
            unreachable!();
        };
        write_line(out, &mut pending, item)?;
    }
    pending.hand_over(out)
}

// Writes a space and a number in decimal.
fn write_number<W: Sink>(out: &mut W, number: u64) -> Result<(), Failed>
    ensures { Writes W.got W.faults W.plan out.old out.new result (32 ∷ decimal number) }
{
    write_all(out, b" ")?;
    let mut buffer = Buffer::new();
    write_all(out, buffer.format(number).as_bytes())
}

// Writes numbers in decimal, each behind a space.
fn write_numbers<W: Sink>(out: &mut W, numbers: &[u64]) -> Result<(), Failed>
    ensures { Writes W.got W.faults W.plan out.old out.new result (spaced numbers.now) }
{
    for number in numbers {
        write_number(out, *number)?;
    }
    Ok(())
}

/// Writes the line of a fault with its numbers.
pub fn write_fault_line<W: Sink>(out: &mut W, name: &[u8], numbers: &[u64]) -> Result<(), Failed>
    ensures { Writes W.got W.faults W.plan out.old out.new result (fault_line name.now numbers.now) }
{
    write_all(out, b"! ")?;
    write_all(out, name)?;
    write_numbers(out, numbers)?;
    write_all(out, b"\n")
}
