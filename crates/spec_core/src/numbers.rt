//! Numbers (RFC 8620 section 1.3).

/// The most that an UnsignedInt is, and an Int beside its sign: 2^53 - 1.
pub const MAX_UNSIGNED_INT: u64 = 9_007_199_254_740_991;
