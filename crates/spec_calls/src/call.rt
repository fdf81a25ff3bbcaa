//! Calls of the methods of an account, and their replies.

use spec_history::entry::Kind;
use spec_json::lists::{Pairs, Texts};
use spec_json::num::Num;
use spec_json::text::Text;
use spec_json::tree::{Tree, TreeObject};

/// A method call on one account.
#[derive(Drop)]
pub struct Call {
    /// The created ids of the request so far (RFC 8620 section 3.3). Of two pairs with one key the later counts.
    pub created: Pairs,
    /// What is asked.
    pub asks: Asks,
}

/// The arguments of a call for objects (RFC 8620 section 5.1), with the defaults of those that are absent, as in all that follow.
#[derive(Drop)]
pub struct GetArguments {
    /// The kind of the objects.
    pub kind: Kind,
    /// The ids asked for, or `None` for all.
    pub ids: Option<Texts>,
    /// The names of the properties asked for, or `None` for all.
    pub properties: Option<Texts>,
}

/// The arguments of a call for what changed since a state (RFC 8620 section 5.2).
#[derive(Drop)]
pub struct ChangesArguments {
    /// The kind of the objects.
    pub kind: Kind,
    /// The state that the client knows.
    pub since: Text,
    /// The most ids that the reply may have, or `None` for no limit.
    pub max: Option<Num>,
}

/// The arguments of a set: which objects are created, updated and destroyed (RFC 8620 section 5.3).
#[derive(Drop)]
pub struct SetArguments {
    /// The kind of the objects.
    pub kind: Kind,
    /// The state in which alone the call is to be carried out.
    pub if_in_state: Option<Text>,
    /// Creation ids, each with the object to be created.
    pub create: Option<TreeObject>,
    /// Ids, each with the patch of its object.
    pub update: Option<TreeObject>,
    /// The ids of the objects to be destroyed.
    pub destroy: Option<Texts>,
    /// The argument `onDestroyRemoveEvents` of calendars.
    pub remove_events: Option<bool>,
}

/// Which events a query finds, and in which order (RFC 8620 section 5.5).
#[derive(Drop)]
pub struct Criteria {
    /// The filter, or `None` for all events.
    pub filter: Option<Tree>,
    /// The list of comparators, or `None` for the order of creation.
    pub sort: Option<Tree>,
    /// The time zone of the filter's times and of floating events.
    pub time_zone: Text,
}

/// Which part of a result a query is to tell (RFC 8620 section 5.5).
#[derive(Drop)]
pub struct Paging {
    /// The place of the first result, from the end where it is negative.
    pub position: Num,
    /// The id that takes the place of a position.
    pub anchor: Option<Text>,
    /// How far behind the anchor the first result stands.
    pub anchor_offset: Num,
    /// The most results, or `None` for no limit of the client.
    pub limit: Option<Num>,
    /// Whether the length of the whole result is told.
    pub calculate_total: bool,
}

/// The arguments of a query of events (RFC 8620 section 5.5).
#[derive(Drop)]
pub struct QueryArguments {
    /// Which events, and in which order.
    pub criteria: Criteria,
    /// Whether each occurrence is a result of its own (draft JMAP for Calendars).
    pub expand: bool,
    /// Which part of the result.
    pub paging: Paging,
}

/// The arguments of a call for what changed of a query's result since a state (RFC 8620 section 5.6).
#[derive(Drop)]
pub struct QueryChangesArguments {
    /// Which events, and in which order.
    pub criteria: Criteria,
    /// Whether each occurrence is a result of its own (draft JMAP for Calendars).
    pub expand: bool,
    /// The state that the client knows.
    pub since: Text,
    /// The most changes that the reply may have, or `None` for no limit.
    pub max: Option<Num>,
    /// The last id that the client knows.
    pub up_to: Option<Text>,
    /// Whether the length of the whole result is told.
    pub calculate_total: bool,
}

/// The arguments of a call for when the account's owner is busy (draft JMAP for Calendars).
#[derive(Drop)]
pub struct AvailabilityArguments {
    /// The principal, which is the account.
    pub id: Text,
    /// The start of the window, a UTCDate.
    pub utc_start: Text,
    /// The end of the window, a UTCDate.
    pub utc_end: Text,
    /// The time zone of floating events.
    pub time_zone: Text,
}

/// The arguments of a call for the first slot of a resource in which a series could be booked.
#[derive(Drop)]
pub struct SlotArguments {
    /// The id of the resource's calendar.
    pub calendar: Text,
    /// How long an occurrence lasts, a Duration (RFC 8984 section 1.4.6).
    pub duration: Text,
    /// The LocalDateTime (RFC 8984 section 1.4.5) from which on starts are tried.
    pub after: Text,
    /// The LocalDateTime up to but without which they are.
    pub before: Text,
    /// The list of the series' recurrence rules (RFC 8984 section 4.3.3), empty for one occurrence alone.
    pub rules: Tree,
}

/// What a method call asks of an account, by its arguments.
#[derive(Drop)]
pub enum Asks {
    /// Asks for objects (RFC 8620 section 5.1).
    Get(GetArguments),
    /// Asks what changed since a state (RFC 8620 section 5.2).
    Changes(ChangesArguments),
    /// Creates, updates and destroys objects (RFC 8620 section 5.3).
    Set(SetArguments),
    /// Asks for the events that a filter holds of, sorted (RFC 8620 section 5.5).
    Query(QueryArguments),
    /// Asks how the result of a query changed since a state (RFC 8620 section 5.6).
    QueryChanges(QueryChangesArguments),
    /// Asks when the account's owner is busy (draft JMAP for Calendars).
    Availability(AvailabilityArguments),
    /// Asks for the first slot of a resource in which a series could be booked.
    Slot(SlotArguments),
}

/// Why a method call was refused (RFC 8620 section 3.6.2). The call changed nothing.
#[derive(Clone, Copy, Debug, PartialEq, Eq, Drop)]
pub enum MethodError {
    /// There is no such method, or the request doesn't use its capability.
    UnknownMethod,
    /// An argument is missing, has a value of a wrong kind, or is given twice.
    InvalidArguments,
    /// A result reference leads to no value (RFC 8620 section 3.7).
    InvalidResultReference,
    /// The user has no such account.
    AccountNotFound,
    /// The user may only read the account.
    AccountReadOnly,
    /// The call asks for more objects than a call may.
    RequestTooLarge,
    /// The state isn't the one in which alone the call is to be carried out.
    StateMismatch,
    /// The filter has a member or an operator that isn't known.
    UnsupportedFilter,
    /// The sort has a property or a collation that isn't known.
    UnsupportedSort,
    /// The anchor isn't in the result.
    AnchorNotFound,
    /// The account has no resource calendar of the id that the call names. RFC 8620 section 5.3 has the name, for the ids of a set.
    NotFound,
    /// What changed since the state can't be told.
    CannotCalculateChanges,
    /// The changes are more than the client takes.
    TooManyChanges,
    /// What the call would change could not be kept.
    ServerFail,
}

/// What a call is answered.
#[derive(Drop)]
pub struct Reply {
    /// The arguments of the response; `Null` where there is an error.
    pub arguments: Tree,
    /// The error, where the call was refused.
    pub error: Option<MethodError>,
    /// The creation ids of the objects that were created, each with the new id.
    pub created: Pairs,
    /// The number of entries of the account's history before this call's own.
    pub place: u64,
}
