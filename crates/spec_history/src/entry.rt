//! The history of an account.
ghost use Rattle.std.specs.Prelude.{◌≡◌};
ghost use Rattle.spec_history.specs.History.{is_kind};

use spec_json::tree::Tree;
use spec_time::moment::Moment;

/// The kinds of object that an account holds, each with a state and with numbers of its own.
#[derive(Clone, Copy, Debug, PartialEq, Eq, Drop)]
pub enum Kind {
    /// A calendar.
    Calendar,
    /// An event of calendars.
    Event,
}

impl Kind {
    /// Whether the two are one kind. Takes no memory.
    pub fn is(self, other: Kind) -> bool
        ensures { result ≡ is_kind self other }
    {
        match (self, other) {
            (Kind::Calendar, Kind::Calendar) => true,
            (Kind::Event, Kind::Event) => true,
            _ => false,
        }
    }
}

/// Puts one whole object, or removes one.
#[derive(Drop)]
pub struct Change {
    /// The kind of the object.
    pub kind: Kind,
    /// The number of the object among those of its kind, from 1.
    pub id: u64,
    /// The object as it is from now on, or `None` where it is removed.
    pub object: Option<Tree>,
}

/// A change that was accepted, with the call that made it.
#[derive(Drop)]
pub struct Entry {
    /// The number of the pass that made the call.
    pub author: u32,
    /// The number of the call among those of its author.
    pub turn: u64,
    /// The place among the call's entries, from 0.
    pub part: u32,
    /// The moment of the call.
    pub moment: Moment,
    /// What was changed.
    pub change: Change,
}
