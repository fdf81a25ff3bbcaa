//! Bytes that were taken from a source and not used.
ghost use Rattle.std.specs.Prelude.{◌≡◌, ◌<◌, ◌≤◌, [], IfErr, IfNone, IfSome, OnOk, drop, length, take};
ghost use Rattle.line_edge.specs.Lines.{HasNoFeed, IsFirstFeed};
ghost use Rattle.line_edge.specs.Reading.{MoveFirst, MoveHow, NoMoreCause, TookMore};

use io_edge::source::Source;
use memchr::memchr;
use std::alloc::Global;
use std::marker::Model;

/// How many bytes are asked of a source at once.
pub const PIECE: usize = 65536;

/// Bytes that were taken from a source and not used. Contracts see their list.
///
/// It holds at most a piece, however many bytes the source has.
#[derive(Drop)]
pub struct Rest {
    bytes: Vec<u8>,
    // The bytes before this place were used.
    used: usize,
}

impl Model for Rest {
    ghost use Rattle.std.specs.Prelude.{List, ℕ, ◌≤◌, length, drop};
    ghost use Rattle.line_edge.specs.declared.rest.TheConstants.{PIECE};

    ghost Value = { List ℕ };

    ghost view = { λ r. drop r.used r.bytes.items };

    ghost invariant = { λ r. (r.used ≤ length r.bytes.items) × (length r.bytes.items ≤ PIECE) };
}

/// Why no more bytes came.
#[derive(Clone, Copy)]
pub enum NoMore {
    /// The input is at its end.
    Ended,
    /// The source failed.
    Failed,
    /// Out of memory.
    NoMemory,
}

/// How far the next bytes of a line were moved.
#[derive(Clone, Copy)]
pub(crate) enum Moved {
    /// To the first line feed, which is dropped.
    Line,
    /// All.
    Part,
    /// Not at all: the line has more bytes than it may have.
    TooLong,
    /// Out of memory.
    NoMemory,
}

impl Rest {
    /// Nothing is left yet. Takes no memory.
    pub fn new(alloc: Global) -> Rest
        ensures { result ≡ [] }
    {
        Rest {
            bytes: Vec::new(alloc),
            used: 0,
        }
    }

    /// The bytes. Takes no memory.
    pub fn as_slice(&self) -> &[u8]
        ensures { result.now ≡ self.now }
    {
        &self.bytes[self.used..]
    }

    // Drops the first `count` bytes.
    fn skip(&mut self, count: usize)
        requires { count ≤ length self.old }
        ensures { self.new ≡ drop count self.old }
    {
        self.used += count;
    }

    /// Takes what a source gives next, where no bytes are left. Takes memory for a piece, the first time, and before the source is asked.
    pub(crate) fn fill<S: Source>(&mut self, source: &mut S) -> Result<(), NoMore>
        ensures took { TookMore (S.shown source.old) (S.shown source.new) self.old self.new }
        ensures some { OnOk result (0 < length self.new) }
        ensures stop { IfErr result (λ stop. (self.new ≡ []) × NoMoreCause (S.shown source.old) (S.shown source.new) stop) }
    {
        if self.as_slice().is_empty() {
            self.refill(source)
        } else {
            Ok(())
        }
    }

    // Takes what a source gives next, where no bytes are left.
    fn refill<S: Source>(&mut self, source: &mut S) -> Result<(), NoMore>
        requires { self.old ≡ [] }
        ensures took { TookMore (S.shown source.old) (S.shown source.new) [] self.new }
        ensures some { OnOk result (0 < length self.new) }
        ensures stop { IfErr result (λ stop. (self.new ≡ []) × NoMoreCause (S.shown source.old) (S.shown source.new) stop) }
    {
        self.bytes.clear();
        self.used = 0;
        match self.bytes.resize(PIECE, 0) {
            Ok(()) => {}
            Err(_) => {
                self.bytes.clear();
                return Err(NoMore::NoMemory);
            }
        }
        match source.take(&mut self.bytes) {
            Ok(0) => {
                self.bytes.clear();
                Err(NoMore::Ended)
            }
            Ok(count) => {
                self.bytes.truncate(count);
                Ok(())
            }
            Err(_) => {
                self.bytes.clear();
                Err(NoMore::Failed)
            }
        }
    }

    /// Moves what stands before the first line feed behind `line`, and drops the line feed; or moves all.
    pub(crate) fn move_line(&mut self, line: &mut Vec<u8>, most: usize) -> Moved
        requires short { length line.old.items ≤ most }
        requires unbroken { HasNoFeed line.old.items }
        ensures { MoveHow most line.old.items self.old line.new.items self.new result }
    {
        match first_feed(self.as_slice()) {
            Some(at) => match self.move_first(at, line, most) {
                Moved::Part => {
                    self.skip(1);
                    Moved::Line
                }
                other => other,
            },
            None => {
                let all = self.as_slice().len();
                self.move_first(all, line, most)
            }
        }
    }

    // Moves the first bytes, among which is no line feed, behind `line`.
    fn move_first(&mut self, count: usize, line: &mut Vec<u8>, most: usize) -> Moved
        requires short { length line.old.items ≤ most }
        requires unbroken { HasNoFeed line.old.items }
        requires there { count ≤ length self.old }
        requires free { HasNoFeed (take count self.old) }
        ensures { MoveFirst count most line.old.items self.old line.new.items self.new result }
    {
        if count > most - line.len() {
            return Moved::TooLong;
        }
        match line.extend_from_slice(&self.as_slice()[..count]) {
            Ok(()) => {
                self.skip(count);
                Moved::Part
            }
            Err(_) => Moved::NoMemory,
        }
    }
}

// Where the first line feed stands.
fn first_feed(bytes: &[u8]) -> Option<usize>
    ensures some { IfSome result (λ at. IsFirstFeed bytes.now at) }
    ensures none { IfNone result (HasNoFeed bytes.now) }
{
    memchr(b'\n', bytes)
}
