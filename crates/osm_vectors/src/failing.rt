//! A writer and a reader that fail after so many bytes.

ghost use Rattle.std.specs.Prelude.{◌≡◌, ◌+◌, IfOk, OnErr, IsErr};
ghost use Rattle.std.specs.Io.{ReadsAtMost, WritesAtMost};
ghost use Rattle.std.specs.Io.KnownBytes.{ReadConsumes, WriteAppends};

use std::io::{Error, ErrorKind, Read, Result, Write};

/// A writer that passes on so many bytes and then fails at every write.
#[derive(Drop)]
pub struct FailingWriter<W> {
    pub inner: W,
    pub room: usize,
}

impl<W: Write> Write for FailingWriter<W> {
    ghost contents = { λ w. W.contents w.inner };

    fn write(&mut self, bytes: &[u8]) -> Result<usize>
        ensures bound { WritesAtMost result bytes.now }
        ensures bytes { WriteAppends (W.contents self.old.inner) (W.contents self.new.inner) result bytes.now }
        ensures room { IfOk result (λ n. n + self.new.room ≡ self.old.room) }
        ensures kept { OnErr result (self.new.room ≡ self.old.room) }
        ensures over { self.old.room ≡ 0 → IsErr result }
    {
        if self.room == 0 {
            return Err(Error::from(ErrorKind::BrokenPipe));
        }
        let count = bytes.len().min(self.room);
        let taken = self.inner.write(&bytes[..count])?;
        self.room -= taken;
        Ok(taken)
    }

    fn flush(&mut self) -> Result<()> {
        self.inner.flush()
    }
}

/// A reader that gives so many bytes and then fails at every read, at the end of the input too.
#[derive(Drop)]
pub struct FailingReader<R> {
    pub inner: R,
    pub left: usize,
}

impl<R: Read> Read for FailingReader<R> {
    ghost remaining = { λ r. R.remaining r.inner };

    fn read(&mut self, buffer: &mut [u8]) -> Result<usize>
        ensures bound { ReadsAtMost result buffer.new }
        ensures bytes { ReadConsumes (R.remaining self.old.inner) (R.remaining self.new.inner) result buffer.new }
        ensures left { IfOk result (λ n. n + self.new.left ≡ self.old.left) }
        ensures kept { OnErr result (self.new.left ≡ self.old.left) }
        ensures over { self.old.left ≡ 0 → IsErr result }
    {
        if self.left == 0 {
            return Err(Error::from(ErrorKind::BrokenPipe));
        }
        let count = buffer.len().min(self.left);
        let given = self.inner.read(&mut buffer[..count])?;
        self.left -= given;
        Ok(given)
    }
}
