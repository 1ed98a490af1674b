//! Stanzas, written to a sink.

ghost use Rattle.std.specs.Prelude.{◌≡◌, ◌≤◌, ◌++◌, ◌∷◌, [], length, codes, map, OnOk};
ghost use Rattle.std.specs.List.{flat_map, AllByRecursion};
ghost use Rattle.std.specs.String.{string_bytes};
ghost use Rattle.age_format.specs.Outside.{WritesWhole};
ghost use Rattle.age_format.specs.Stanza.{IsArbitraryString, IsBytes, base64, stanza_of, body_lines, spelling};
ghost use Rattle.age_send.specs.Sending.{stanza_with, under_command};

use age_format::format::Stanza;
use age_format::outside::{Failed, Sink, write_whole};
use base64::engine::general_purpose::STANDARD_NO_PAD;
use thiserror::Error;

/// How many bytes a full line of a body spells.
const LINE_BYTES: usize = 48;

/// The longest line of a body, in bytes: 64 characters and a line feed.
const LINE_LEN: usize = 65;

/// The sink failed.
#[derive(Clone, Copy, Debug, PartialEq, Eq, Error)]
#[error("the sink failed")]
pub struct WriteFault;

impl From<Failed> for WriteFault {
    fn from(_e: Failed) -> WriteFault {
        WriteFault
    }
}

/// Writes the front of a stanza: `-> ` and its tag.
fn write_tag<W: Sink>(sink: &mut W, tag: &str) -> Result<(), Failed>
    ensures { WritesWhole W.got W.faults W.plan sink.old sink.new result (codes "-> " ++ tag.now) }
{
    write_whole(sink, b"-> ")?;
    write_whole(sink, tag.as_bytes())
}

/// Writes an argument, and the space before it.
fn write_arg<W: Sink>(sink: &mut W, arg: &str) -> Result<(), Failed>
    ensures { WritesWhole W.got W.faults W.plan sink.old sink.new result (32 ∷ arg.now) }
{
    write_whole(sink, b" ")?;
    write_whole(sink, arg.as_bytes())
}

/// Writes arguments, each with a space before it.
fn write_args<W: Sink>(sink: &mut W, args: &[String]) -> Result<(), Failed>
    ensures { WritesWhole W.got W.faults W.plan sink.old sink.new result (flat_map (λ arg. 32 ∷ arg) (map string_bytes args.now)) }
{
    for arg in args {
        write_arg(sink, arg.as_str())?;
    }
    Ok(())
}

/// Writes a line that spells these bytes, of which there are 48 at most, by way of the buffer.
fn write_line<W: Sink>(sink: &mut W, bytes: &[u8], buffer: &mut [u8]) -> Result<(), Failed>
    requires few { length bytes.now ≤ 48 }
    requires room { length buffer.old ≡ 65 }
    ensures { WritesWhole W.got W.faults W.plan sink.old sink.new result (base64 bytes.now ++ 10 ∷ []) }
{
    let Ok(length) = STANDARD_NO_PAD.encode_slice(bytes, buffer) else {
        unreachable!();
    };
    buffer[length] = b'\n';
    write_whole(sink, &buffer[..length + 1])
}

/// Writes the lines of a body, by way of the buffer.
fn write_lines<W: Sink>(sink: &mut W, body: &[u8], buffer: &mut [u8]) -> Result<(), Failed>
    requires { length buffer.old ≡ 65 }
    ensures { WritesWhole W.got W.faults W.plan sink.old sink.new result (body_lines body.now) }
{
    let mut rest = body;
    while rest.len() >= LINE_BYTES {
        let (line, behind) = rest.split_at(LINE_BYTES);
        write_line(sink, line, buffer)?;
        rest = behind;
    }
    write_line(sink, rest, buffer)
}

/// Ends the header line of a stanza, and writes its body.
fn write_body<W: Sink>(sink: &mut W, body: &[u8]) -> Result<(), Failed>
    ensures bytes { IsBytes body.now }
    ensures written { WritesWhole W.got W.faults W.plan sink.old sink.new result (10 ∷ body_lines body.now) }
{
    write_whole(sink, b"\n")?;
    let mut buffer = [0; LINE_LEN];
    write_lines(sink, body, &mut buffer)
}

/// Writes a stanza of these parts.
pub(crate) fn write_parts<W: Sink>(
    sink: &mut W,
    tag: &str,
    args: &[String],
    body: &[u8],
) -> Result<(), Failed>
    ensures { WritesWhole W.got W.faults W.plan sink.old sink.new result (spelling (stanza_with tag.now (map string_bytes args.now) body.now)) }
{
    write_tag(sink, tag)?;
    write_args(sink, args)?;
    write_body(sink, body)
}

/// Writes the arguments of a stanza under a command: metadata, its tag, and its arguments.
fn write_metadata<W: Sink>(sink: &mut W, metadata: &[String], stanza: &Stanza) -> Result<(), Failed>
    ensures { WritesWhole W.got W.faults W.plan sink.old sink.new result
        (flat_map (λ arg. 32 ∷ arg) (map string_bytes metadata.now ++ string_bytes stanza.now.tag ∷ map string_bytes stanza.now.args.items)) }
{
    write_args(sink, metadata)?;
    write_arg(sink, stanza.tag.as_str())?;
    write_args(sink, stanza.args.as_slice())
}

/// Writes a stanza under a command.
pub(crate) fn write_under_command<W: Sink>(
    sink: &mut W,
    command: &str,
    metadata: &[String],
    stanza: &Stanza,
) -> Result<(), Failed>
    ensures bytes { OnOk result (IsBytes stanza.now.body.items) }
    ensures written { WritesWhole W.got W.faults W.plan sink.old sink.new result (spelling (under_command command.now (map string_bytes metadata.now) (stanza_of stanza.now))) }
{
    write_tag(sink, command)?;
    write_metadata(sink, metadata, stanza)?;
    write_body(sink, stanza.body.as_slice())
}

/// Writes a stanza: `-> `, the tag, each argument behind a space, a line feed, and the body in base64 in
/// lines of 64 characters, of which the last has 0 to 63 (RFC 4648, section 4, without padding).
///
/// It takes no memory. `WriteFault` comes exactly where it wasn't written whole: a part of it, from its front,
/// was written, and not all of it.
pub fn age_stanza<W: Sink>(
    sink: &mut W,
    tag: &str,
    args: &[String],
    body: &[u8],
) -> Result<(), WriteFault>
    requires tag { IsArbitraryString tag.now }
    requires args { AllByRecursion IsArbitraryString (map string_bytes args.now) }
    ensures { WritesWhole W.got W.faults W.plan sink.old sink.new result (spelling (stanza_with tag.now (map string_bytes args.now) body.now)) }
{
    Ok(write_parts(sink, tag, args, body)?)
}

/// Writes a stanza under a command, as [`age_stanza`] writes one: its tag is the command, and its arguments
/// are the metadata, the stanza's tag and the stanza's arguments.
///
/// It takes no memory. `WriteFault` comes exactly where it wasn't written whole: a part of it, from its front,
/// was written, and not all of it.
pub fn age_stanza_under<W: Sink>(
    sink: &mut W,
    command: &str,
    metadata: &[String],
    stanza: &Stanza,
) -> Result<(), WriteFault>
    requires command { IsArbitraryString command.now }
    requires metadata { AllByRecursion IsArbitraryString (map string_bytes metadata.now) }
    requires tag { IsArbitraryString (string_bytes stanza.now.tag) }
    requires args { AllByRecursion IsArbitraryString (map string_bytes stanza.now.args.items) }
    ensures { WritesWhole W.got W.faults W.plan sink.old sink.new result (spelling (under_command command.now (map string_bytes metadata.now) (stanza_of stanza.now))) }
{
    Ok(write_under_command(sink, command, metadata, stanza)?)
}
