//! Errors of listening sockets.

use std::io;

/// Whether an error of `accept` says that the listening socket itself is of no more use: it is no open, listening socket (EBADF, EINVAL, ENOTSOCK, EOPNOTSUPP).
///
/// Other errors are of one connection, or pass.
pub fn is_broken(error: &io::Error) -> bool {
    matches!(error.raw_os_error(), Some(9 | 22 | 88 | 95))
}
