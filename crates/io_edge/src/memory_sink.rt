//! Sinks in memory.

ghost use Rattle.std.specs.Prelude.{◌≡◌, ◌<◌, [], Ok, Some, IfOk, IsErr, OnErr, length, option_map, take};
ghost use Rattle.std.specs.Io.{WritesAtMost};
ghost use Rattle.io_edge.specs.FailingCalls.{CountsCall, faults_of};
ghost use Rattle.io_edge.specs.Outside.{Grows, HasCause};

use crate::failing_calls::FailingCalls;
use crate::fault::Failed;
use crate::sink::Sink;
use std::alloc::Global;

/// Holds what it was given. It never fails.
///
/// Where it finds no memory for a piece it stops telling what it holds, and goes on taking pieces.
#[derive(Drop)]
pub struct SureSink {
    bytes: Vec<u8>,
    tells: bool,
}

impl SureSink {
    /// Makes a sink that holds nothing. Takes no memory.
    pub fn new(alloc: Global) -> SureSink
        ensures { (⟦<SureSink as Sink>⟧.shown result).holds ≡ Some [] }
    {
        SureSink {
            bytes: Vec::new(alloc),
            tells: true,
        }
    }

    /// What the sink holds, where it tells it.
    pub fn bytes(&self) -> Option<&[u8]>
        ensures { option_map (λ bytes. bytes.now) result ≡ (⟦<SureSink as Sink>⟧.shown self.now).holds }
    {
        if self.tells { Some(&self.bytes) } else { None }
    }
}

impl Sink for SureSink {
    ghost use Rattle.io_edge.specs.MemoryForms.{held_by};

    ghost shown = { λ sink. record { holds = held_by sink; faults = 0 } };

    fn give(&mut self, bytes: &[u8]) -> Result<usize, Failed>
        ensures bound { WritesAtMost result bytes.now }
        ensures some { IfOk result (λ n. 0 < length bytes.now → 0 < n) }
        ensures ok { IfOk result (λ n. Grows (⟦<SureSink as Sink>⟧.shown self.old).holds (⟦<SureSink as Sink>⟧.shown self.new).holds (take n bytes.now)) }
        ensures err { OnErr result ((⟦<SureSink as Sink>⟧.shown self.new).holds ≡ (⟦<SureSink as Sink>⟧.shown self.old).holds) }
        ensures cause { HasCause (⟦<SureSink as Sink>⟧.shown self.old).faults (⟦<SureSink as Sink>⟧.shown self.new).faults result }

        // It takes each piece whole.
        ensures whole { result ≡ Ok (length bytes.now) }
    {
        if self.bytes.extend_from_slice(bytes).is_err() {
            self.tells = false;
        }
        Ok(bytes.len())
    }
}

/// Holds what it was given, and fails at the calls that it lists. It takes each other piece whole.
///
/// Where it finds no memory for a piece it stops telling what it holds, and goes on taking pieces.
#[derive(Drop)]
pub struct MemSink {
    inner: SureSink,
    failing: FailingCalls,
}

impl MemSink {
    ghost use Rattle.io_edge.specs.MemoryForms.{failing_gives};

    /// Makes a sink that holds nothing.
    ///
    /// The calls of `give` whose numbers, from 0, stand in `failing` fail. Takes no memory.
    pub fn new(alloc: Global, failing: Vec<u64>) -> MemSink
        ensures holds { (⟦<MemSink as Sink>⟧.shown result).holds ≡ Some [] }
        ensures faults { (⟦<MemSink as Sink>⟧.shown result).faults ≡ 0 }
        ensures failing { failing_gives result ≡ failing.items }
    {
        MemSink {
            inner: SureSink::new(alloc),
            failing: FailingCalls::new(failing),
        }
    }

    /// What the sink holds, where it tells it.
    pub fn bytes(&self) -> Option<&[u8]>
        ensures { option_map (λ bytes. bytes.now) result ≡ (⟦<MemSink as Sink>⟧.shown self.now).holds }
    {
        self.inner.bytes()
    }
}

impl Sink for MemSink {
    ghost use Rattle.io_edge.specs.MemoryForms.{held_by};

    ghost shown = { λ sink. record { holds = held_by sink.inner; faults = faults_of sink.failing } };

    fn give(&mut self, bytes: &[u8]) -> Result<usize, Failed>
        ensures bound { WritesAtMost result bytes.now }
        ensures some { IfOk result (λ n. 0 < length bytes.now → 0 < n) }
        ensures ok { IfOk result (λ n. Grows (⟦<MemSink as Sink>⟧.shown self.old).holds (⟦<MemSink as Sink>⟧.shown self.new).holds (take n bytes.now)) }
        ensures err { OnErr result ((⟦<MemSink as Sink>⟧.shown self.new).holds ≡ (⟦<MemSink as Sink>⟧.shown self.old).holds) }
        ensures cause { HasCause (⟦<MemSink as Sink>⟧.shown self.old).faults (⟦<MemSink as Sink>⟧.shown self.new).faults result }

        // The listed calls fail and no other does, and each other takes the whole piece.
        ensures listed { CountsCall self.old.failing self.new.failing (IsErr result) }
        ensures whole { IfOk result (λ n. n ≡ length bytes.now) }
    {
        if self.failing.next_fails() {
            return Err(Failed);
        }
        self.inner.give(bytes)
    }
}
