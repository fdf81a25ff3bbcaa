//! Reads that waited in vain.

use std::io::{Error, ErrorKind};

/// Whether a stream waited in vain for as long as it may. Takes no memory.
pub(crate) fn is_silence(error: &Error) -> bool {
    matches!(error.kind(), ErrorKind::WouldBlock | ErrorKind::TimedOut)
}
