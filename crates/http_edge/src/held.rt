//! Bytes that were read and not used.
ghost use Rattle.std.specs.Prelude.{◌≡◌, ◌≤◌, ◌<◌, ◌+◌, [], length, drop, OnOk, IfErr};
ghost use Rattle.http_edge.specs.Reading.{StopCause, Took};

use io_edge::source::Source;
use spec_core::limits::MAX_SIZE_REQUEST;
use spec_http::limits::{MAX_HEAD, PIECE};
use std::alloc::Global;
use std::marker::Model;

/// The most bytes that are held at once, with those that were used: a head, a body, and a piece.
pub const MAX_HELD: usize = MAX_HEAD + MAX_SIZE_REQUEST + PIECE;

/// Bytes that were read from a source and not used. Contracts see their list.
///
/// With those that were used it holds at most `MAX_HELD` bytes, however many a connection has.
#[derive(Drop)]
pub struct HeldBytes {
    bytes: Vec<u8>,
    // The bytes before this place were used.
    used: usize,
}

impl Model for HeldBytes {
    ghost use Rattle.std.specs.Prelude.{List, ℕ, ◌≤◌, length, drop};
    ghost use Rattle.http_edge.specs.declared.held.TheConstants.{MAX_HELD};

    ghost Value = { List ℕ };

    ghost view = { λ k. drop k.used k.bytes.items };

    ghost invariant = { λ k. (k.used ≤ length k.bytes.items) × (length k.bytes.items ≤ MAX_HELD) };
}

/// Why no more bytes came.
#[derive(Clone, Copy)]
pub enum Stop {
    /// The input is at its end.
    Ended,
    /// The source failed.
    Failed,
    /// Out of memory.
    NoMemory,
}

impl HeldBytes {
    /// Nothing is kept yet. Takes no memory.
    pub fn new(alloc: Global) -> HeldBytes
        ensures { result ≡ [] }
    {
        HeldBytes {
            bytes: Vec::new(alloc),
            used: 0,
        }
    }

    /// The bytes. Takes no memory.
    pub fn as_slice(&self) -> &[u8]
        ensures { result.now ≡ self.now }
    {
        &self.bytes[self.used..]
    }

    /// Drops the first `count` bytes. Takes no memory.
    pub(crate) fn skip(&mut self, count: usize)
        requires { count ≤ length self.old }
        ensures { self.new ≡ drop count self.old }
    {
        self.used += count;
    }

    /// Takes what a source gives next, at most as many bytes as `piece` has, which is where they are put first.
    ///
    /// The memory is reserved before the source is asked, so nothing that was taken is lost.
    pub(crate) fn take_more<S: Source>(
        &mut self,
        source: &mut S,
        piece: &mut [u8],
    ) -> Result<(), Stop>
        requires some { 0 < length piece.old }
        requires piece { length piece.old ≤ PIECE }
        requires few { length self.old ≤ MAX_HEAD + MAX_SIZE_REQUEST }
        ensures took { Took (S.shown source.old) (S.shown source.new) self.old self.new }
        ensures more { OnOk result (length self.old < length self.new) }
        ensures most { length self.new ≤ length self.old + length piece.old }
        ensures stop { IfErr result (λ stop. (self.new ≡ self.old) × StopCause (S.shown source.old) (S.shown source.new) stop) }
    {
        drop_first(&mut self.bytes, self.used);
        self.used = 0;
        match self.bytes.reserve(piece.len()) {
            Ok(()) => {}
            Err(_) => return Err(Stop::NoMemory),
        }
        let count = match source.take(piece) {
            Ok(0) => return Err(Stop::Ended),
            Ok(count) => count,
            Err(_) => return Err(Stop::Failed),
        };
        match self.bytes.extend_from_slice(&piece[..count]) {
            Ok(()) => Ok(()),
            Err(_) => unreachable!(),
        }
    }
}

// Moves the bytes behind the first ones over these.
fn drop_first(bytes: &mut Vec<u8>, count: usize)
    requires { count ≤ length bytes.old.items }
    ensures { bytes.new.items ≡ drop count bytes.old.items }
{
    if count > 0 {
        bytes.rotate_left(count);
        bytes.truncate(bytes.len() - count);
    }
}
