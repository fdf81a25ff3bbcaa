//! By what a query compares (RFC 8620 section 5.5).

/// The most comparators of a query.
pub const MAX_COMPARATORS: usize = 8;

/// A property by which items are compared.
#[derive(Clone, Copy)]
pub enum Property {
    /// The start, by moments.
    Start,
    /// The uid, byte by byte.
    Uid,
    /// The title, byte by byte.
    Title,
    /// The creation, by moments.
    Created,
    /// The last set, by moments.
    Updated,
}

/// A property, and which way it goes.
#[derive(Clone, Copy)]
pub struct Comparator {
    /// The property that is compared.
    pub property: Property,
    /// Whether what is less comes first.
    pub ascending: bool,
}
