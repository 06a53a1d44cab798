//! A piece of the input, of which the front was given on.

ghost use Rattle.std.specs.Prelude.{◌≡◌, ◌≤◌, List, [], true, ℕ, length, take, drop, IfOk, OnOk, OnErr};
ghost use Rattle.std.specs.Io.KnownBytes.{Consumes, Keeps, IsAtEnd};

use super::source::{Source, SourceFailed};
use std::alloc::{AllocError, Global};
use std::marker::Model;

/// How many bytes one read asks for.
const PIECE_LEN: usize = 65_536;

/// The bytes that were read and not yet given on.
#[derive(Drop)]
pub struct Piece {
    bytes: Vec<u8>,
    at: usize,
    end: usize,
}

impl Model for Piece {
    ghost Value = { List ℕ };

    ghost view = { λ p. drop p.at (take p.end p.bytes.items) };

    ghost invariant = { λ p. (p.at ≤ p.end) × (p.end ≤ length p.bytes.items) × (length p.bytes.items ≡ 65536) };
}

impl Piece {
    /// A piece without a byte. An error where memory was refused.
    pub fn new(alloc: Global) -> Result<Piece, AllocError>
        ensures { IfOk result (λ p. p ≡ []) }
    {
        Ok(Piece {
            bytes: vec![in alloc; 0_u8; PIECE_LEN]?,
            at: 0,
            end: 0,
        })
    }

    pub(super) fn unread(&self) -> &[u8]
        ensures { result.now ≡ self.now }
    {
        &self.bytes[self.at..self.end]
    }

    pub(super) fn skip(&mut self, count: usize)
        requires { count ≤ length self.old }
        ensures { self.new ≡ drop count self.old }
    {
        self.at += count;
    }

    pub(super) fn refill<S: Source>(&mut self, source: &mut S) -> Result<(), SourceFailed>
        requires { self.old ≡ [] }
        ensures ok { OnOk result (Consumes (S.bytes_left source.old) (S.bytes_left source.new) self.new) }
        ensures end { OnOk result (self.new ≡ [] → IsAtEnd (S.bytes_left source.new)) }
        ensures err { OnErr result (self.new ≡ []) }
        ensures failed { OnErr result (S.has_failed source.new ≡ true) }
        ensures kept { OnErr result (Keeps (S.bytes_left source.old) (S.bytes_left source.new)) }
    {
        self.at = 0;
        self.end = 0;
        self.end = source.read(self.bytes.as_mut_slice())?;
        Ok(())
    }
}
