//! One read and one write through each copy.

use age_debug::{DebugReader, DebugWriter};
use age_format::outside::{CleanSource, Failed, MemSink, Sink, Source};
use std::alloc::{AllocError, Global};
use std::test::Fail;

/// A mail of no messages.
const MAIL: &[u8] = b"-> done\n\n";

// A source of the mail.
fn mail(alloc: Global) -> Result<CleanSource, AllocError> {
    Ok(CleanSource::new(Vec::from_slice(alloc, MAIL)?))
}

// A sink over memory that fails at these writes.
fn sink(alloc: Global, fail_at: &[u64]) -> Result<MemSink, AllocError> {
    Ok(MemSink::new(alloc, Vec::from_slice(alloc, fail_at)?))
}

// What the copy of a reader got.
fn read_copy(reader: &DebugReader<CleanSource, MemSink>) -> &[u8] {
    match reader {
        DebugReader::Off(_) => &[],
        DebugReader::On(_, copy) => copy.bytes(),
    }
}

// What the copy of a writer got.
fn written_copy(writer: &DebugWriter<MemSink, MemSink>) -> &[u8] {
    match writer {
        DebugWriter::Off(_) => &[],
        DebugWriter::On(_, copy) => copy.bytes(),
    }
}

// What the inner sink of a writer got.
fn written(writer: &DebugWriter<MemSink, MemSink>) -> &[u8] {
    match writer {
        DebugWriter::Off(sink) => sink.bytes(),
        DebugWriter::On(sink, _) => sink.bytes(),
    }
}

#[test]
fn copies_what_is_read(rt: HostRuntime) -> Result<(), Fail> {
    let mut reader = DebugReader::On(mail(rt.alloc())?, sink(rt.alloc(), &[1])?);
    let mut buffer = [0; 5];
    assert!(rt; reader.read(&mut buffer) == Ok(5));
    assert_eq!(rt; buffer.as_slice(), &MAIL[..5]);
    assert!(rt; reader.read(&mut buffer) == Ok(4));
    assert_eq!(rt; &buffer[..4], &MAIL[5..]);
    assert_eq!(rt; read_copy(&reader), &MAIL[..5]);
    let mut reader: DebugReader<CleanSource, MemSink> = DebugReader::Off(mail(rt.alloc())?);
    assert!(rt; reader.read(&mut buffer) == Ok(5));
    assert_eq!(rt; buffer.as_slice(), &MAIL[..5]);
    Ok(())
}

#[test]
fn copies_what_is_written(rt: HostRuntime) -> Result<(), Fail> {
    let mut writer = DebugWriter::On(sink(rt.alloc(), &[1])?, sink(rt.alloc(), &[])?);
    assert!(rt; writer.write(MAIL) == Ok(9));
    assert!(rt; writer.write(MAIL) == Err(Failed));
    assert_eq!(rt; written(&writer), MAIL);
    assert_eq!(rt; written_copy(&writer), MAIL);
    let mut writer: DebugWriter<MemSink, MemSink> = DebugWriter::Off(sink(rt.alloc(), &[])?);
    assert!(rt; writer.write(MAIL) == Ok(9));
    assert_eq!(rt; written(&writer), MAIL);
    Ok(())
}
