//! What comes of one object of a set.

use crate::set_error::SetError;
use spec_history::entry::Change;

/// What comes of creating, updating or destroying one object (RFC 8620 section 5.3).
#[derive(Drop)]
pub enum Outcome {
    /// It makes this change.
    Accepted(Change),
    /// It is refused, and changes nothing.
    Refused(SetError),
}
