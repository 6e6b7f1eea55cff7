//! The first bytes of a reader.
ghost use Rattle.std.specs.Prelude.{◌≡◌, ◌≤◌, length, take, IfOk, IfErr};
ghost use Rattle.std.specs.Io.{ReadsAtMost};
ghost use Rattle.std.specs.Io.KnownBytes.{ReadConsumes};
ghost use Rattle.streams.specs.Streams.{TakesAtMost, TakesFirst};
ghost use Rattle.streams.specs.Errors.{Answered, ReadErrorOf};

use crate::sources::Source;
use std::alloc::{AllocError, Global};
use std::io;
use std::io::ErrorKind;

// A row is filled with zeros before it is read into, so bytes are read in parts: at first so many, then each time as many as were read.
const FIRST_PART: usize = 4096;

/// What kept bytes from being read.
#[derive(Debug, Drop)]
pub enum ReadError {
    /// There was no memory for so many.
    Memory(AllocError),
    /// The reader answered an error.
    Reader(io::Error),
}

/// Reads the first bytes that a reader has left, so many or all that there are, and takes no more from it.
/// An error of the reader is one that it answered, by what it says of its errors. Where want of memory for so many bytes is told, none is taken.
pub fn read_first<R: Source>(
    heap: Global,
    reader: &mut R,
    most: usize,
) -> Result<Vec<u8>, ReadError>
    ensures read { IfOk result (λ bytes. TakesFirst most (R.remaining reader.old) (R.remaining reader.new) bytes.items) }
    ensures few { TakesAtMost most (R.remaining reader.old) (R.remaining reader.new) }
    ensures error { IfErr result (ReadErrorOf R.fails reader.old reader.new) }
{
    let mut bytes = Vec::with_capacity(heap, most).map_err(ReadError::Memory)?;
    let mut count = 0;
    while count == bytes.len() && count < most {
        let room = count + (most - count).min(count.max(FIRST_PART));
        bytes.resize(room, 0).map_err(ReadError::Memory)?;
        count += fill(reader, &mut bytes.as_mut_slice()[count..]).map_err(ReadError::Reader)?;
    }
    bytes.truncate(count);
    Ok(bytes)
}

// Fills a row from a reader as far as that has bytes, and answers how many.
fn fill<R: Source>(reader: &mut R, row: &mut [u8]) -> io::Result<usize>
    ensures count { IfOk result (λ count. count ≤ length row.new) }
    ensures read { IfOk result (λ count. TakesFirst (length row.old) (R.remaining reader.old) (R.remaining reader.new) (take count row.new)) }
    ensures few { TakesAtMost (length row.old) (R.remaining reader.old) (R.remaining reader.new) }
    ensures error { IfErr result (Answered R.fails reader.new) }
{
    let mut count = 0;
    while count < row.len() {
        let more = read_retrying(reader, &mut row[count..])?;
        if more == 0 {
            break;
        }
        count += more;
    }
    Ok(count)
}

// A read, made again where a signal interrupts it.
fn read_retrying<R: Source>(reader: &mut R, row: &mut [u8]) -> io::Result<usize>
    ensures bound { ReadsAtMost result row.new }
    ensures bytes { ReadConsumes (R.remaining reader.old) (R.remaining reader.new) result row.new }
    ensures error { IfErr result (Answered R.fails reader.new) }
{
    for _ in 1..u64::MAX {
        match reader.read_some(row) {
            Err(error) if error.kind() == ErrorKind::Interrupted => {}
            answer => return answer,
        }
    }
    reader.read_some(row)
}
