//! What a command has done so far, and whether its progress line is due.

ghost use Rattle.std.specs.Prelude.{◌≡◌, ◌↔◌, ◌+◌, ◌==◌, ◌++◌, ◌∷◌, [], ℕ, List, Some, true, false, not, IsTrue};
ghost use Rattle.pbfrow_reading.specs.Checking.{capped};
ghost use Rattle.pbfrow_terminal.specs.Tallies.{IsDue, at_least};

use pbfrow_reading::progress::Progress;

/// How long a command works before its line is drawn, in milliseconds.
const PATIENCE: u64 = 1000;

/// How long a line stands before it is redrawn, in milliseconds.
const PAUSE: u64 = 200;

/// What a command has done so far, and where its progress line stands.
#[derive(Clone, Copy, Debug, PartialEq, Eq)]
pub struct Tally {
    /// How many bytes are done.
    pub bytes: u64,
    /// How many blobs are done.
    pub blobs: u64,
    /// How many bytes there are at least, if that is known.
    pub size: Option<u64>,
    /// When the line was drawn, in milliseconds since the command began; 0 before.
    pub drawn_at: u64,
    /// Whether the line stands on the terminal.
    pub is_drawn: bool,
    /// Whether the output is in the middle of a line on the same terminal.
    pub is_inside_line: bool,
}

impl Tally {
    /// Nothing is done, and no line is drawn.
    pub const NONE: Tally = Tally {
        bytes: 0,
        blobs: 0,
        size: None,
        drawn_at: 0,
        is_drawn: false,
        is_inside_line: false,
    };

    /// With one blob more; the count stops at 2^64 - 1.
    pub fn with_blob(self) -> Tally
        ensures { result ≡ record self { blobs = capped (self.blobs + 1) } }
    {
        Tally {
            blobs: self.blobs.saturating_add(1),
            ..self
        }
    }

    /// With so many bytes more; the count stops at 2^64 - 1.
    pub fn with_bytes(self, count: u64) -> Tally
        ensures { result ≡ record self { bytes = capped (self.bytes + count) } }
    {
        Tally {
            bytes: self.bytes.saturating_add(count),
            ..self
        }
    }

    /// With all bytes before this offset done, and no others.
    pub fn with_offset(self, off: u64) -> Tally
        ensures { result ≡ record self { bytes = off } }
    {
        Tally { bytes: off, ..self }
    }

    /// With so many bytes in all, or more where more were told before.
    pub fn with_size(self, size: u64) -> Tally
        ensures { result ≡ record self { size = Some (at_least self.size size) } }
    {
        let known = self.size.unwrap_or(0);
        Tally {
            size: Some(size.max(known)),
            ..self
        }
    }

    /// Behind this output on the same terminal.
    pub fn with_output(self, taken: &[u8]) -> Tally
        ensures nothing { taken.now ≡ [] → result ≡ self }
        ensures last { (before : List ℕ) (byte : ℕ) → taken.now ≡ before ++ byte ∷ [] → result ≡ record self { is_inside_line = not (byte == 10) } }
    {
        match taken.last() {
            Some(byte) => Tally {
                is_inside_line: *byte != b'\n',
                ..self
            },
            None => self,
        }
    }

    /// Whether the line is due, so many milliseconds after the command began.
    pub fn is_due(self, milliseconds: u64) -> bool
        ensures { IsTrue result ↔ IsDue self milliseconds }
    {
        let pause = milliseconds.saturating_sub(self.drawn_at);
        milliseconds >= PATIENCE && pause >= PAUSE && !self.is_inside_line
    }

    /// What the line tells, so many milliseconds after the command began.
    pub fn progress(self, milliseconds: u64) -> Progress
        ensures { result ≡ record { bytes = self.bytes; blobs = self.blobs; milliseconds = milliseconds; size = self.size } }
    {
        Progress {
            bytes: self.bytes,
            blobs: self.blobs,
            milliseconds,
            size: self.size,
        }
    }

    /// With the line drawn then.
    pub fn with_line(self, milliseconds: u64) -> Tally
        ensures { result ≡ record self { drawn_at = milliseconds; is_drawn = true } }
    {
        Tally {
            drawn_at: milliseconds,
            is_drawn: true,
            ..self
        }
    }

    /// With the line erased.
    pub fn without_line(self) -> Tally
        ensures { result ≡ record self { is_drawn = false } }
    {
        Tally {
            is_drawn: false,
            ..self
        }
    }
}
