//! What a query puts in order.
use spec_json::text::Text;

/// What the comparators of a query see of an event, or of one occurrence of it.
#[derive(Drop)]
pub struct Item {
    /// The moment at which it starts, in seconds of UTC from 1970.
    pub start: i64,
    /// The text of the event's `uid`.
    pub uid: Text,
    /// The title, empty where there is none.
    pub title: Text,
    /// The moment at which the event was created, in seconds of UTC from 1970.
    pub created: i64,
    /// The moment at which the event was last set, in seconds of UTC from 1970.
    pub updated: i64,
}
