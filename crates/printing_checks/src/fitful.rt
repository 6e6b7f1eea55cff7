//! Readers and writers that fail, and such as are interrupted at every other call and pass on one byte at the others.
use std::io;
use std::io::{ErrorKind, Read, Write};

// Fails at each read and at each write.
#[derive(Drop)]
pub(crate) struct Broken {}

impl Read for Broken {
    fn read(&mut self, _buf: &mut [u8]) -> io::Result<usize> {
        Err(io::Error::from(ErrorKind::BrokenPipe))
    }
}

impl Write for Broken {
    fn write(&mut self, _bytes: &[u8]) -> io::Result<usize> {
        Err(io::Error::from(ErrorKind::BrokenPipe))
    }

    fn flush(&mut self) -> io::Result<()> {
        Ok(())
    }
}

// Interrupted at every other call, passes on one byte at the others.
#[derive(Drop)]
pub(crate) struct Fitful<T> {
    pub(crate) inner: T,
    pub(crate) interrupted: bool,
}

impl<R: Read> Read for Fitful<R> {
    fn read(&mut self, buf: &mut [u8]) -> io::Result<usize> {
        self.interrupted = !self.interrupted;
        if self.interrupted {
            return Err(io::Error::from(ErrorKind::Interrupted));
        }
        let most = buf.len().min(1);
        self.inner.read(&mut buf[..most])
    }
}

impl<W: Write> Write for Fitful<W> {
    fn write(&mut self, bytes: &[u8]) -> io::Result<usize> {
        self.interrupted = !self.interrupted;
        if self.interrupted {
            return Err(io::Error::from(ErrorKind::Interrupted));
        }
        self.inner.write(&bytes[..bytes.len().min(1)])
    }

    fn flush(&mut self) -> io::Result<()> {
        self.inner.flush()
    }
}
