//! How much the calls of a request may refer to and answer.

/// The most result references that a call has: each value that is referred to is measured before anything is copied.
pub const MAX_REFERENCES: usize = 4;

/// The most bytes of the compact texts of the values that a call's result references have together.
pub const MAX_REFERRED_BYTES: u64 = 10_000_000;

/// The most bytes of the compact texts of the arguments that the responses before a call have together.
pub const MAX_RESPONSES_BYTES: u64 = 10_000_000;
