//! Bytes that wait.
use std::alloc::{AllocError, Global};

/// Bytes that wait to be passed on, in order.
#[derive(Drop)]
pub(crate) struct Held {
    alloc: Global,
    bytes: Vec<u8>,
    // How many of them were passed on.
    passed: usize,
}

impl Held {
    /// No bytes. Takes no memory.
    pub(crate) fn new(alloc: Global) -> Held {
        Held {
            alloc,
            bytes: Vec::new(alloc),
            passed: 0,
        }
    }

    /// The bytes that wait.
    pub(crate) fn rest(&self) -> &[u8] {
        self.bytes.get(self.passed..).unwrap_or_default()
    }

    /// Has bytes wait behind those that do. Takes memory for them.
    pub(crate) fn add(&mut self, bytes: &[u8]) -> Result<(), AllocError> {
        self.bytes.extend_from_slice(bytes)
    }

    /// So many of the bytes were passed on. Where all were, their memory is given back.
    pub(crate) fn pass(&mut self, count: usize) {
        self.passed = self.passed.saturating_add(count);
        if self.passed >= self.bytes.len() {
            self.bytes = Vec::new(self.alloc);
            self.passed = 0;
        }
    }
}
