//! How a command ended.

use spec_site::field::Field;

/// How a command ended.
#[derive(Clone, Copy, Debug, PartialEq, Eq, Drop)]
pub enum Status {
    /// The work was done, and the answer was written.
    Done,
    /// The request was refused as a whole, and the problem was written.
    Refused,
    /// The words are no command's, or name a user that there isn't.
    Usage,
    /// The configuration is refused.
    Config {
        /// The first bad field.
        field: Field,
        /// The place of its first bad item from 0, or 0 where no item is bad alone.
        index: u32,
    },
    /// Reading the input failed.
    ReadFault,
    /// Writing the output failed.
    WriteFault,
    /// The configuration couldn't be loaded, or there is none of its name.
    OpenFault,
    /// No memory was left.
    NoMemory,
    /// The connection ended by a head that is refused, inside a message, or with as many messages as it may have.
    Cut,
}
