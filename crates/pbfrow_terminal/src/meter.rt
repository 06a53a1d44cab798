//! The progress of a command, and its line on a terminal.

ghost use Rattle.std.specs.Prelude.{◌≡◌, ◌<◌, ◌++◌, OnOk};
ghost use Rattle.pbfrow_terminal.specs.Tallies.{erasing_line};

use crate::tally::Tally;
use pbfrow_reading::progress::{Progress, print_progress};
use pbfrow_reading::watcher::Watcher;
use std::cell::Cell;
use std::fs::File;
use std::io;
use std::io::{IsTerminal, Write};
use std::time::Instant;

/// Moves to the start of the line and erases it.
const ERASURE: &[u8] = b"\r\x1b[K";

/// Counts what a command has done, and draws a progress line on standard error if that is a terminal. A line that can't
/// be drawn is left out.
#[derive(Drop)]
pub struct Meter<'a> {
    rt: &'a HostRuntime,
    /// When the command began; none if no line is drawn.
    start: Option<Instant>,
    /// Whether standard output is a terminal too, so that its lines and this one must make room for each other.
    shares_terminal: bool,
    tally: Cell<Tally>,
}

impl<'a> Meter<'a> {
    /// A meter that begins now. If it isn't shown, it draws nothing.
    pub fn new(rt: &'a HostRuntime, is_shown: bool) -> Meter<'a> {
        let start = if is_shown && rt.stderr().is_terminal() {
            Instant::now(rt).ok()
        } else {
            None
        };
        Meter {
            rt,
            start,
            shares_terminal: rt.stdout().is_terminal(),
            tally: Cell::new(Tally::NONE),
        }
    }

    /// Takes the size from a regular file. A pipe has none.
    pub fn measure(&self, file: &File) {
        self.measure_part(file, 0, u64::MAX);
    }

    /// Takes the size of the part of a regular file that is read: what stands behind the bytes that were skipped, and of
    /// that so many at most.
    pub fn measure_part(&self, file: &File, skipped: u64, most: u64) {
        if let Ok(metadata) = file.metadata() {
            if metadata.is_file() {
                self.see_size(metadata.len().saturating_sub(skipped).min(most));
            }
        }
    }

    /// Draws the line if it is due.
    fn update(&self) {
        let Some(start) = self.start else {
            return;
        };
        let Ok(elapsed) = start.elapsed(self.rt) else {
            return;
        };
        let milliseconds = u64::try_from(elapsed.as_millis()).unwrap_or(u64::MAX);
        if self.tally.get().is_due(milliseconds) {
            self.draw(milliseconds);
        }
    }

    /// Draws the line over the previous one.
    fn draw(&self, milliseconds: u64)
        requires { 0 < milliseconds }
    {
        let tally = self.tally.get();
        let progress = tally.progress(milliseconds);
        let mut line = Vec::new(self.rt.alloc());
        if compose(&progress, &mut line).is_err() {
            return;
        }
        let _drawn = self.rt.stderr().write_all(&line);
        self.tally.set(tally.with_line(milliseconds));
    }

    /// Erases the line.
    pub fn erase(&self) {
        let tally = self.tally.get();
        if tally.is_drawn {
            let _erased = self.rt.stderr().write_all(ERASURE);
            self.tally.set(tally.without_line());
        }
    }
}

impl Watcher for Meter<'_> {
    fn see_blob(&self) {
        self.tally.set(self.tally.get().with_blob());
        self.update();
    }

    fn see_bytes(&self, count: u64) {
        self.tally.set(self.tally.get().with_bytes(count));
        self.update();
    }

    fn see_offset(&self, off: u64) {
        self.tally.set(self.tally.get().with_offset(off));
        self.update();
    }

    fn see_size(&self, size: u64) {
        self.tally.set(self.tally.get().with_size(size));
    }

    /// Makes room for what goes to standard output.
    fn give_way(&self) {
        if self.shares_terminal {
            self.erase();
        }
    }

    fn see_output(&self, taken: &[u8]) {
        if self.shares_terminal {
            self.tally.set(self.tally.get().with_output(taken));
        }
    }
}

/// Writes what draws the line over the previous one, in one piece, so that it doesn't flicker.
fn compose(progress: &Progress, line: &mut Vec<u8>) -> io::Result<()>
    requires { 0 < progress.now.milliseconds }
    ensures { OnOk result (line.new.items ≡ line.old.items ++ erasing_line progress.now) }
{
    line.write_all(b"\r")?;
    print_progress(progress, line)?;
    line.write_all(b"\x1b[K")
}
