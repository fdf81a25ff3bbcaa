//! Faults of the outside.

/// The outside didn't do what was asked of it.
#[derive(Clone, Copy, Debug, PartialEq, Eq)]
pub struct Failed;
