//! What is kept of a history.

use spec_history::entry::Entry;
use spec_json::tree::Tree;

/// A live object, by the number that it has among those of its kind.
#[derive(Drop)]
pub struct LiveObject {
    /// The number, from 1.
    pub id: u64,
    /// The object.
    pub object: Tree,
}

/// What is kept of one kind up to one of its states.
#[derive(Drop)]
pub struct KindFloor {
    /// The state: how many changes of the kind there were by then (RFC 8620 section 5.1).
    pub state: u64,
    /// How many objects of the kind were created by then.
    pub created: u64,
    /// What was live then, in order of creation.
    pub live: Vec<LiveObject>,
}

/// What is kept of a history: of each kind what was live at a state, and all entries behind it.
#[derive(Drop)]
pub struct KeptHistory {
    /// Of calendars.
    pub calendars: KindFloor,
    /// Of events.
    pub events: KindFloor,
    /// The entries of both kinds behind these states, in their order.
    pub behind: Vec<Entry>,
}
