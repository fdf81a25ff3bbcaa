//! The results of a query in their order.

use crate::found_occurrence::FoundOccurrence;

/// A result at its place. It refers to what was found, so that a sort moves as little as may be.
#[derive(Clone, Copy)]
pub(crate) struct Ranked<'a> {
    pub(crate) found: &'a FoundOccurrence<'a>,
}
