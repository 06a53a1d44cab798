//! What the tests of several commands share.

use pbfrow_reading::watcher::Watcher;
use std::io;
use std::io::{Read, Write};

/// A header frame of 47 bytes and a data frame of 37 with two nodes.
pub const TWO_NODES: &[u8; 84] =
    b"\x00\x00\x00\x0D\x0A\x09OSMHeader\x18\x1E\x0A\x1C\x22\x0EOsmSchema-V0.6\x22\x0ADenseNodes\x00\x00\x00\x0B\x0A\x07OSMData\x18\x16\x0A\x14\x0A\x02\x0A\x00\x12\x0E\x12\x0C\x0A\x02\x02\x02\x42\x02\x14\x01\x4A\x02\x01\x00";

/// A frame of type Extra, of 16 bytes.
pub const EXTRA: &[u8; 16] = b"\x00\x00\x00\x09\x0A\x05Extra\x18\x03\xFF\xFF\xFF";

/// A reader that gives some bytes and then fails.
#[derive(Drop)]
pub struct Breaking<'a> {
    pub given: &'a [u8],
}

impl Read for Breaking<'_> {
    fn read(&mut self, buf: &mut [u8]) -> io::Result<usize> {
        if self.given.is_empty() {
            return Err(io::Error::from(io::ErrorKind::Interrupted));
        }
        self.given.read(buf)
    }
}

/// A reader that gives a few bytes a read.
#[derive(Drop)]
pub struct Dripping<'a> {
    pub given: &'a [u8],
    pub step: usize,
}

impl Read for Dripping<'_> {
    fn read(&mut self, buf: &mut [u8]) -> io::Result<usize> {
        let most = self.step.min(buf.len());
        self.given.read(&mut buf[..most])
    }
}

/// A writer that takes nothing.
#[derive(Drop)]
pub struct Closed;

impl Write for Closed {
    fn write(&mut self, _buf: &[u8]) -> io::Result<usize> {
        Err(io::Error::from(io::ErrorKind::BrokenPipe))
    }

    fn flush(&mut self) -> io::Result<()> {
        Ok(())
    }
}

/// A watcher that keeps nothing of what it is told.
pub struct Unwatched;

impl Watcher for Unwatched {
    fn see_blob(&self) {}

    fn see_bytes(&self, _count: u64) {}

    fn see_offset(&self, _off: u64) {}

    fn see_size(&self, _size: u64) {}

    fn give_way(&self) {}

    fn see_output(&self, _taken: &[u8]) {}
}
