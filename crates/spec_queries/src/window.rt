//! Which part of a result a query asks for (RFC 8620 section 5.5).

/// The item that a query counts from, and its place in the result.
#[derive(Clone, Copy)]
pub enum Anchor {
    /// The query names no anchor.
    None,
    /// The anchor stands at this place, from 0.
    At(u64),
    /// The anchor isn't in the result.
    Missing,
}

/// The places from `from` up to, but without, `to`.
#[derive(Clone, Copy)]
pub struct Cut {
    /// The first place.
    pub from: u64,
    /// The place behind the last one.
    pub to: u64,
}
