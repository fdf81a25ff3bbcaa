//! States of the objects of an account.

/// A state of the objects of a kind in an account (RFC 8620 section 5.1).
///
/// States of another generation are of a history that may have gone another way from an entry on, so no client goes on from one of them.
#[derive(Clone, Copy, Debug, PartialEq, Eq, Drop)]
pub struct State {
    /// The generation of the account's data.
    pub generation: u64,
    /// The number of entries of the kind.
    pub number: u64,
}
