//! The limits that a session object tells (RFC 8620 section 2).

/// `maxSizeRequest`: the most bytes of a request.
pub const MAX_SIZE_REQUEST: usize = 10_000_000;

/// `maxCallsInRequest`: the most method calls of a request.
pub const MAX_CALLS_IN_REQUEST: usize = 16;

/// `maxObjectsInGet`: the most objects of a get.
pub const MAX_OBJECTS_IN_GET: usize = 500;

/// `maxObjectsInSet`: the most objects that a set creates, updates and destroys together.
pub const MAX_OBJECTS_IN_SET: usize = 500;
