//! Readers of which it can be said how they fail.
ghost use Rattle.std.specs.Prelude.{⊤, IfErr};
ghost use Rattle.std.specs.Io.{ReadsAtMost};
ghost use Rattle.std.specs.Io.KnownBytes.{ReadConsumes};
ghost use Rattle.std_io.specs.declared.io.error.Error.{Error};

use std::io;
use std::io::Read;

/// A reader that says which errors it answers.
pub trait Source: Read {
    /// A read may find the reader as the first is, leave it as the second is, and answer this error.
    ghost fails: { Self → Self → Error → Type 0 };

    /// Reads some bytes, as `read` does.
    fn read_some(&mut self, buf: &mut [u8]) -> io::Result<usize>
        ensures bound { ReadsAtMost result buf.new }
        ensures bytes { ReadConsumes (Self.remaining self.old) (Self.remaining self.new) result buf.new }
        ensures failed { IfErr result (λ error. fails self.old self.new error) };
}

/// Bytes in memory are read without an error.
impl Source for &[u8] {
    ghost fails = { λ before after error. ⊥ };

    fn read_some(&mut self, buf: &mut [u8]) -> io::Result<usize> {
        self.read(buf)
    }
}

/// Any reader. Of its errors nothing is said, nor that an error is this reader's own: the library says nothing of them.
#[derive(Drop)]
pub struct AnyReader<R>(pub R);

impl<R: Read> Read for AnyReader<R> {
    ghost remaining = { λ reader. R.remaining reader.0 };

    fn read(&mut self, buf: &mut [u8]) -> io::Result<usize> {
        self.0.read(buf)
    }
}

impl<R: Read> Source for AnyReader<R> {
    ghost fails = { λ before after error. ⊤ };

    fn read_some(&mut self, buf: &mut [u8]) -> io::Result<usize> {
        self.read(buf)
    }
}
