//! The limits on configurations.

/// The most bytes of a configuration.
pub const MAX_CONFIGURATION_BYTES: usize = 1_000_000;

/// The most bytes of what the server's addresses begin with, and of the address of its WebSockets.
pub const MAX_BASE_URL_BYTES: usize = 1000;

/// The most accounts of a site.
pub const MAX_ACCOUNTS: usize = 16;

/// The most users of a site.
pub const MAX_USERS: usize = 64;

/// The most time zones of a site, beside `Etc/UTC`.
pub const MAX_ZONES: usize = 64;
