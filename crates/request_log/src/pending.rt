//! Lines that wait to be written.
ghost use Rattle.std.specs.Prelude.{◌≡◌, ◌≤◌, IfOk, length};

use std::alloc::{AllocError, Global};

/// How many bytes of lines wait at most.
pub(crate) const MOST_PENDING: usize = 1 << 18;

/// Lines that wait to be written, in order, and what is known of them.
#[derive(Drop)]
pub(crate) struct Pending {
    pub(crate) bytes: Vec<u8>,
    // How many lines there was no room for, since that was told.
    pub(crate) dropped: u64,
    // Whether no more lines come.
    pub(crate) is_closed: bool,
    // Whether all lines were written, or tried, that will be.
    pub(crate) is_done: bool,
}

impl Pending {
    /// No lines. Takes memory for all that may wait.
    pub(crate) fn new(alloc: Global) -> Result<Pending, AllocError> {
        Ok(Pending {
            bytes: Vec::with_capacity(alloc, MOST_PENDING)?,
            dropped: 0,
            is_closed: false,
            is_done: false,
        })
    }

    /// Adds a line, where there is room, and else counts it. Takes no memory.
    pub(crate) fn add(&mut self, line: &str) {
        let room = MOST_PENDING.saturating_sub(self.bytes.len());
        let has_room = line.len() < room
            && self.bytes.extend_from_slice(line.as_bytes()).is_ok()
            && self.bytes.push(b'\n').is_ok();
        if !has_room {
            self.dropped = self.dropped.saturating_add(1);
        }
    }

    /// Whether there is nothing to write now, and there may be later.
    pub(crate) fn is_waiting(&self) -> bool {
        self.bytes.is_empty() && self.dropped == 0 && !self.is_closed
    }
}
