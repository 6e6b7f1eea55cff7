//! Bytes written to a writer, all of them.
ghost use Rattle.std.specs.Prelude.{◌<◌, length, IfOk, IfErr, OnOk, OnErr};
ghost use Rattle.std.specs.Io.{WritesAtMost};
ghost use Rattle.std.specs.Io.KnownBytes.{Appends, WriteAppends};
ghost use Rattle.streams.specs.Streams.{PutsFirst};
ghost use Rattle.streams.specs.Errors.{Answered};

use crate::sinks::Sink;
use std::io;
use std::io::ErrorKind;

/// Writes all bytes after what the writer has.
/// An error is one that the writer answered, by what it says of its errors; it has then taken a first part of the bytes, and not all.
pub fn write_whole<W: Sink>(writer: &mut W, bytes: &[u8]) -> io::Result<()>
    ensures written { OnOk result (Appends (W.contents writer.old) (W.contents writer.new) bytes.now) }
    ensures part { OnErr result (PutsFirst (W.contents writer.old) (W.contents writer.new) bytes.now) }
    ensures error { IfErr result (Answered W.fails writer.new) }
{
    let mut rest = bytes;
    while !rest.is_empty() {
        let count = write_retrying(writer, rest)?;
        rest = &rest[count..];
    }
    Ok(())
}

// A write, made again where a signal interrupts it.
fn write_retrying<W: Sink>(writer: &mut W, bytes: &[u8]) -> io::Result<usize>
    ensures bound { WritesAtMost result bytes.now }
    ensures bytes { WriteAppends (W.contents writer.old) (W.contents writer.new) result bytes.now }
    ensures some { IfOk result (λ count. 0 < length bytes.now → 0 < count) }
    ensures error { IfErr result (Answered W.fails writer.new) }
{
    for _ in 1..u64::MAX {
        match writer.write_some(bytes) {
            Err(error) if error.kind() == ErrorKind::Interrupted => {}
            answer => return answer,
        }
    }
    writer.write_some(bytes)
}
