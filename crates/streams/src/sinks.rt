//! Writers of which it can be said how they fail.
ghost use Rattle.std.specs.Prelude.{◌≡◌, ◌<◌, ⊤, length, IfOk, IfErr};
ghost use Rattle.std.specs.Io.{WritesAtMost};
ghost use Rattle.std.specs.IoError.{error_kind};
ghost use Rattle.std.specs.Io.KnownBytes.{WriteAppends};
ghost use Rattle.std_io.specs.declared.io.error.Error.{Error};
ghost use Rattle.std_io.specs.declared.io.kind.ErrorKind.TheVariants.{OutOfMemory};

use std::io;
use std::io::{ErrorKind, Write};

/// A writer that says which errors it answers. That it takes none of some bytes is an error too.
pub trait Sink: Write {
    /// A write may find the writer as the first is, leave it as the second is, and answer this error.
    ghost fails: { Self → Self → Error → Type 0 };

    /// Writes some first bytes, at least one where there is one.
    fn write_some(&mut self, bytes: &[u8]) -> io::Result<usize>
        ensures bound { WritesAtMost result bytes.now }
        ensures bytes { WriteAppends (Self.contents self.old) (Self.contents self.new) result bytes.now }
        ensures some { IfOk result (λ count. 0 < length bytes.now → 0 < count) }
        ensures failed { IfErr result (λ error. fails self.old self.new error) };
}

/// A vector fails only where memory runs out, and then stays as it was.
impl Sink for Vec<u8> {
    ghost fails = { λ before after error. (after.items ≡ before.items) × (error_kind error ≡ OutOfMemory) };

    fn write_some(&mut self, bytes: &[u8]) -> io::Result<usize> {
        self.write(bytes)
    }
}

/// Any writer. Of its errors nothing is said, nor that an error is this writer's own: the library says nothing of them.
#[derive(Drop)]
pub struct AnyWriter<W>(pub W);

impl<W: Write> Write for AnyWriter<W> {
    ghost contents = { λ writer. W.contents writer.0 };

    fn write(&mut self, bytes: &[u8]) -> io::Result<usize> {
        self.0.write(bytes)
    }

    fn flush(&mut self) -> io::Result<()> {
        self.0.flush()
    }
}

impl<W: Write> Sink for AnyWriter<W> {
    ghost fails = { λ before after error. ⊤ };

    fn write_some(&mut self, bytes: &[u8]) -> io::Result<usize> {
        match self.write(bytes)? {
            0 if !bytes.is_empty() => Err(io::Error::from(ErrorKind::WriteZero)),
            count => Ok(count),
        }
    }
}
