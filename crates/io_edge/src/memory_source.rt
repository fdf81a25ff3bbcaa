//! Sources in memory.

ghost use Rattle.std.specs.Prelude.{◌≡◌, ◌+◌, ◌<◌, ◌≤◌, ◌++◌, [], Ok, Some, IfOk, IsErr, drop, length, min, take};
ghost use Rattle.std.specs.Io.{ReadsAtMost};
ghost use Rattle.std.specs.Io.KnownBytes.{ReadConsumes};
ghost use Rattle.io_edge.specs.FailingCalls.{CountsCall, faults_of};
ghost use Rattle.io_edge.specs.Outside.{HasCause};

use crate::failing_calls::FailingCalls;
use crate::fault::Failed;
use crate::source::Source;

/// Gives its bytes, as many at once as there is room for. It never fails.
#[derive(Drop)]
pub struct SureSource {
    bytes: Vec<u8>,
    at: usize,
    ghost within: { at ≤ length bytes.items },
}

impl SureSource {
    /// Makes a source of these bytes. Takes no memory.
    pub fn new(bytes: Vec<u8>) -> SureSource
        ensures { (⟦<SureSource as Source>⟧.shown result).left ≡ Some bytes.items }
    {
        SureSource { bytes, at: 0 }
    }

    // Puts at most `most` of the bytes that are left at the front of `buf`.
    fn take_up_to(&mut self, buf: &mut [u8], most: usize) -> usize
        requires { 0 < most }
        ensures count { result ≡ min (min (length (drop self.old.at self.old.bytes.items)) (length buf.old)) most }
        ensures bound { result ≤ length buf.old }
        ensures bytes { drop self.old.at self.old.bytes.items ≡ take result buf.new ++ drop self.new.at self.new.bytes.items }
        ensures end { result ≡ 0 → 0 < length buf.old → drop self.new.at self.new.bytes.items ≡ [] }
    {
        let count = (self.bytes.len() - self.at).min(buf.len()).min(most);
        buf[..count].copy_from_slice(&self.bytes[self.at..self.at + count]);
        self.at += count;
        count
    }
}

impl Source for SureSource {
    ghost shown = { λ source. record { left = Some (drop source.at source.bytes.items); faults = 0 } };

    fn take(&mut self, buf: &mut [u8]) -> Result<usize, Failed>
        ensures bound { ReadsAtMost result buf.new }
        ensures bytes { ReadConsumes (⟦<SureSource as Source>⟧.shown self.old).left (⟦<SureSource as Source>⟧.shown self.new).left result buf.new }
        ensures cause { HasCause (⟦<SureSource as Source>⟧.shown self.old).faults (⟦<SureSource as Source>⟧.shown self.new).faults result }

        // It gives as many bytes as are left and have room.
        ensures count { result ≡ Ok (min (length (drop self.old.at self.old.bytes.items)) (length buf.old)) }
    {
        Ok(self.take_up_to(buf, usize::MAX))
    }
}

/// Gives its bytes, at most so many at once, and fails at the calls that it lists.
#[derive(Drop)]
pub struct MemSource {
    inner: SureSource,
    most: usize,
    failing: FailingCalls,
    ghost some: { 0 < most },
}

impl MemSource {
    ghost use Rattle.io_edge.specs.MemoryForms.{failing_takes};

    /// Makes a source of these bytes, which gives at most `most` of them in one call.
    ///
    /// The calls of `take` whose numbers, from 0, stand in `failing` fail. Takes no memory.
    pub fn new(bytes: Vec<u8>, most: usize, failing: Vec<u64>) -> MemSource
        requires { 0 < most }
        ensures left { (⟦<MemSource as Source>⟧.shown result).left ≡ Some bytes.items }
        ensures faults { (⟦<MemSource as Source>⟧.shown result).faults ≡ 0 }
        ensures failing { failing_takes result ≡ failing.items }
    {
        MemSource {
            inner: SureSource::new(bytes),
            most,
            failing: FailingCalls::new(failing),
        }
    }
}

impl Source for MemSource {
    ghost shown = { λ source. record { left = Some (drop source.inner.at source.inner.bytes.items); faults = faults_of source.failing } };

    fn take(&mut self, buf: &mut [u8]) -> Result<usize, Failed>
        ensures bound { ReadsAtMost result buf.new }
        ensures bytes { ReadConsumes (⟦<MemSource as Source>⟧.shown self.old).left (⟦<MemSource as Source>⟧.shown self.new).left result buf.new }
        ensures cause { HasCause (⟦<MemSource as Source>⟧.shown self.old).faults (⟦<MemSource as Source>⟧.shown self.new).faults result }

        // The listed calls fail and no other does, and each other gives as many bytes as are left, have room and may come at once.
        ensures listed { CountsCall self.old.failing self.new.failing (IsErr result) }
        ensures count { IfOk result (λ n. n ≡ min (min (length (drop self.old.inner.at self.old.inner.bytes.items)) (length buf.old)) self.old.most) }
        ensures most { self.new.most ≡ self.old.most }
    {
        if self.failing.next_fails() {
            return Err(Failed);
        }
        Ok(self.inner.take_up_to(buf, self.most))
    }
}
