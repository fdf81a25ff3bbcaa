//! A sink in memory whose room is taken when it is made.

ghost use Rattle.std.specs.Prelude.{◌≡◌, ◌⊎◌, ◌↔◌, ◌+◌, ◌<◌, ◌≤◌, [], Some, IfOk, IsErr, IsTrue, OnErr, length, take, vec_capacity, vec_len};
ghost use Rattle.std.specs.Io.{WritesAtMost};
ghost use Rattle.io_edge.specs.FailingCalls.{is_to_fail};
ghost use Rattle.io_edge.specs.Outside.{Grows, HasCause};

use crate::failing_calls::FailingCalls;
use crate::fault::Failed;
use crate::sink::Sink;
use std::alloc::{AllocError, Global};

/// Holds what it was given, and always tells it.
///
/// A piece that is longer than the room that is left is a fault, and so are the calls that it lists. It takes each other piece whole.
#[derive(Drop)]
pub struct RoomSink {
    bytes: Vec<u8>,
    room: usize,
    failing: FailingCalls,
    faults: u64,
    ghost within: { (vec_len bytes ≤ room) × (room ≤ vec_capacity bytes) },
}

impl RoomSink {
    ghost use Rattle.io_edge.specs.MemoryForms.{failing_room_gives};

    /// Makes a sink that holds nothing and has room for so many bytes.
    ///
    /// The calls of `give` whose numbers, from 0, stand in `failing` fail. Takes memory for the room.
    pub fn new(alloc: Global, room: usize, failing: Vec<u64>) -> Result<RoomSink, AllocError>
        ensures holds { IfOk result (λ sink. (⟦<RoomSink as Sink>⟧.shown sink).holds ≡ Some []) }
        ensures faults { IfOk result (λ sink. (⟦<RoomSink as Sink>⟧.shown sink).faults ≡ 0) }
        ensures room { IfOk result (λ sink. sink.room ≡ room) }
        ensures failing { IfOk result (λ sink. failing_room_gives sink ≡ failing.items) }
    {
        let mut bytes = Vec::new(alloc);
        bytes.reserve(room)?;
        Ok(RoomSink {
            bytes,
            room,
            failing: FailingCalls::new(failing),
            faults: 0,
        })
    }

    /// What the sink holds. Takes no memory.
    pub fn bytes(&self) -> &[u8]
        ensures { Some result.now ≡ (⟦<RoomSink as Sink>⟧.shown self.now).holds }
    {
        &self.bytes
    }
}

impl Sink for RoomSink {
    ghost shown = { λ sink. record { holds = Some sink.bytes.items; faults = sink.faults } };

    fn give(&mut self, bytes: &[u8]) -> Result<usize, Failed>
        ensures bound { WritesAtMost result bytes.now }
        ensures some { IfOk result (λ n. 0 < length bytes.now → 0 < n) }
        ensures ok { IfOk result (λ n. Grows (⟦<RoomSink as Sink>⟧.shown self.old).holds (⟦<RoomSink as Sink>⟧.shown self.new).holds (take n bytes.now)) }
        ensures err { OnErr result ((⟦<RoomSink as Sink>⟧.shown self.new).holds ≡ (⟦<RoomSink as Sink>⟧.shown self.old).holds) }
        ensures cause { HasCause (⟦<RoomSink as Sink>⟧.shown self.old).faults (⟦<RoomSink as Sink>⟧.shown self.new).faults result }

        // It fails exactly at the listed calls and where the piece is longer than the room that is left, and else takes the whole piece.
        ensures fails { IsErr result ↔ (IsTrue (is_to_fail self.old.failing) ⊎ (self.old.room < vec_len self.old.bytes + length bytes.now)) }
        ensures whole { IfOk result (λ n. n ≡ length bytes.now) }
        ensures room { self.new.room ≡ self.old.room }
    {
        let listed = self.failing.next_fails();
        if listed || bytes.len() > self.room - self.bytes.len() {
            self.faults = self.faults.saturating_add(1);
            return Err(Failed);
        }
        match self.bytes.extend_from_slice(bytes) {
            Ok(()) => Ok(bytes.len()),
            Err(_) => unreachable!(),
        }
    }
}
