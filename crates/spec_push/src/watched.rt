//! States that are watched.

use spec_history::entry::Kind;
use spec_json::text::Text;

/// A type of objects in an account whose state a client is told.
#[derive(Drop)]
pub struct Watched {
    /// The number of the account, from 0.
    pub account: u32,
    /// The account's id.
    pub id: Text,
    /// The type.
    pub kind: Kind,
    /// The state that the client was told last, if it was told one.
    pub told: Option<Text>,
    /// How many entries the account's history had when the state was last looked at, if it was.
    pub place: Option<u64>,
}
