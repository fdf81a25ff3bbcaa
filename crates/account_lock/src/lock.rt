//! Where a pass of a ticket lock stands.

/// Where a pass of a ticket lock stands in its call.
#[derive(Clone, Copy, Debug, PartialEq, Eq, Drop)]
pub enum Phase {
    /// Outside a call.
    Idle,
    /// With a ticket that isn't served yet.
    Waits,
    /// With the turn, and the book in hand.
    Turn,
    /// With the turn, and the book's history read.
    Read,
    /// With the turn, and the call's entries added.
    Done,
}
