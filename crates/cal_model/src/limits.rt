//! How much an account may hold, and a get may list.

/// The most changes that an account ever makes, 2^40, so that all numbers of its objects are kept (`journal_keeper`).
pub const MAX_CHANGES: u64 = 1_099_511_627_776;

/// The most live objects of an account, of both kinds.
pub const MAX_OBJECTS: usize = 50_000;

/// The most bytes of the compact texts of the live objects of an account.
pub const MAX_OBJECT_BYTES: usize = 16_777_216;

/// The most bytes of the compact texts of the objects that a get of events lists.
pub const MAX_GET_BYTES: u64 = 20_000_000;
