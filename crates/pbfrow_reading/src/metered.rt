//! Readers and writers that tell a watcher what they do. Each does what the one inside it does.

use crate::watcher::Watcher;
use std::io;
use std::io::{Read, Write};

/// A reader that tells how many bytes it gave.
#[derive(Drop)]
pub struct MeteredReader<'a, R, P> {
    pub reader: R,
    pub watcher: &'a P,
}

impl<R: Read, P: Watcher> Read for MeteredReader<'_, R, P> {
    ghost remaining = { λ m. R.remaining m.reader };

    fn read(&mut self, buf: &mut [u8]) -> io::Result<usize> {
        let result = self.reader.read(buf);
        if let Ok(count) = &result {
            self.watcher.see_bytes(*count as u64);
        }
        result
    }
}

/// A writer to standard output, for which the progress line makes room.
#[derive(Drop)]
pub struct MeteredOutput<'a, W, P> {
    pub writer: W,
    pub watcher: &'a P,
}

impl<W: Write, P: Watcher> Write for MeteredOutput<'_, W, P> {
    ghost contents = { λ m. W.contents m.writer };

    fn write(&mut self, buf: &[u8]) -> io::Result<usize> {
        self.watcher.give_way();
        let result = self.writer.write(buf);
        if let Ok(count) = &result {
            self.watcher.see_output(&buf[..*count]);
        }
        result
    }

    fn flush(&mut self) -> io::Result<()> {
        self.writer.flush()
    }
}
