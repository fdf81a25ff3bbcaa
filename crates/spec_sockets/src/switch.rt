//! Texts that switch on and off that changes are told.

use spec_push::data_types::DataTypes;

/// Whether a client is told changes from now on (RFC 8887 section 4.3.5).
#[derive(Clone, Copy, Debug, PartialEq, Eq, Drop)]
pub enum Switch {
    /// It is told those of these types, in place of others that it was told.
    Enable(DataTypes),
    /// It is told none.
    Disable,
}
