//! The methods, each with its capability.
ghost use Rattle.std.specs.Prelude.{◌≡◌, map};
ghost use Rattle.spec_calls.specs.Arguments.{argument_of};
ghost use Rattle.spec_calls.specs.Methods.{method_named, row};

use spec_core::capability::{AVAILABILITY, CALENDARS, CORE, SLOTS};

/// A method that requests may call.
#[derive(Clone, Copy, Debug, PartialEq, Eq, Drop)]
pub enum Method {
    Echo,
    CalendarGet,
    CalendarChanges,
    CalendarSet,
    EventGet,
    EventChanges,
    EventSet,
    EventQuery,
    EventQueryChanges,
    GetAvailability,
    FindSlot,
}

/// A kind of JSON value that an argument may have.
#[derive(Clone, Copy, Debug, PartialEq, Eq, Drop)]
pub enum Shape {
    /// A text.
    Text,
    /// A whole number.
    Number,
    /// True or false.
    Truth,
    /// A list of texts.
    Texts,
    /// A list of objects.
    Objects,
    /// An object.
    Object,
}

/// An argument of a method.
#[derive(Clone, Copy, Debug, PartialEq, Eq, Drop)]
pub enum Argument {
    /// A text of this name, which a call has to give.
    Needs(&'static str),
    /// A value of this name and shape, which a call may leave out.
    Takes(&'static str, Shape),
}

const GET_ARGUMENTS: &[Argument] = &[
    Argument::Needs("accountId"),
    Argument::Takes("ids", Shape::Texts),
    Argument::Takes("properties", Shape::Texts),
];

const CHANGES_ARGUMENTS: &[Argument] = &[
    Argument::Needs("accountId"),
    Argument::Needs("sinceState"),
    Argument::Takes("maxChanges", Shape::Number),
];

const CALENDAR_SET_ARGUMENTS: &[Argument] = &[
    Argument::Takes("onDestroyRemoveEvents", Shape::Truth),
    Argument::Needs("accountId"),
    Argument::Takes("ifInState", Shape::Text),
    Argument::Takes("create", Shape::Object),
    Argument::Takes("update", Shape::Object),
    Argument::Takes("destroy", Shape::Texts),
];

const EVENT_SET_ARGUMENTS: &[Argument] = &[
    Argument::Needs("accountId"),
    Argument::Takes("ifInState", Shape::Text),
    Argument::Takes("create", Shape::Object),
    Argument::Takes("update", Shape::Object),
    Argument::Takes("destroy", Shape::Texts),
];

const QUERY_ARGUMENTS: &[Argument] = &[
    Argument::Takes("position", Shape::Number),
    Argument::Takes("anchor", Shape::Text),
    Argument::Takes("anchorOffset", Shape::Number),
    Argument::Takes("limit", Shape::Number),
    Argument::Needs("accountId"),
    Argument::Takes("filter", Shape::Object),
    Argument::Takes("sort", Shape::Objects),
    Argument::Takes("calculateTotal", Shape::Truth),
    Argument::Takes("expandRecurrences", Shape::Truth),
    Argument::Takes("timeZone", Shape::Text),
];

const QUERY_CHANGES_ARGUMENTS: &[Argument] = &[
    Argument::Needs("sinceQueryState"),
    Argument::Takes("maxChanges", Shape::Number),
    Argument::Takes("upToId", Shape::Text),
    Argument::Needs("accountId"),
    Argument::Takes("filter", Shape::Object),
    Argument::Takes("sort", Shape::Objects),
    Argument::Takes("calculateTotal", Shape::Truth),
    Argument::Takes("expandRecurrences", Shape::Truth),
    Argument::Takes("timeZone", Shape::Text),
];

const AVAILABILITY_ARGUMENTS: &[Argument] = &[
    Argument::Needs("accountId"),
    Argument::Needs("id"),
    Argument::Needs("utcStart"),
    Argument::Needs("utcEnd"),
    Argument::Takes("timeZone", Shape::Text),
];

const SLOT_ARGUMENTS: &[Argument] = &[
    Argument::Needs("accountId"),
    Argument::Needs("calendarId"),
    Argument::Needs("duration"),
    Argument::Needs("after"),
    Argument::Needs("before"),
    Argument::Takes("recurrenceRules", Shape::Objects),
];

impl Method {
    /// The method of a name. Takes no memory.
    pub fn named(name: &str) -> Option<Method>
        ensures { result ≡ method_named name.now }
    {
        match name {
            "Core/echo" => Some(Method::Echo),
            "Calendar/get" => Some(Method::CalendarGet),
            "Calendar/changes" => Some(Method::CalendarChanges),
            "Calendar/set" => Some(Method::CalendarSet),
            "CalendarEvent/get" => Some(Method::EventGet),
            "CalendarEvent/changes" => Some(Method::EventChanges),
            "CalendarEvent/set" => Some(Method::EventSet),
            "CalendarEvent/query" => Some(Method::EventQuery),
            "CalendarEvent/queryChanges" => Some(Method::EventQueryChanges),
            "Principal/getAvailability" => Some(Method::GetAvailability),
            "Resource/findSlot" => Some(Method::FindSlot),
            _ => None,
        }
    }

    /// The capability that a request must use to call this method. Takes no memory.
    pub fn capability(self) -> &'static str
        ensures { result.now ≡ (row self).capability }
    {
        match self {
            Method::Echo => CORE,
            Method::GetAvailability => AVAILABILITY,
            Method::FindSlot => SLOTS,
            _ => CALENDARS,
        }
    }

    /// The arguments that calls of this method have. Takes no memory.
    pub fn arguments(self) -> &'static [Argument]
        ensures { map argument_of result.now ≡ (row self).arguments }
    {
        match self {
            Method::Echo => &[],
            Method::CalendarGet | Method::EventGet => GET_ARGUMENTS,
            Method::CalendarChanges | Method::EventChanges => CHANGES_ARGUMENTS,
            Method::CalendarSet => CALENDAR_SET_ARGUMENTS,
            Method::EventSet => EVENT_SET_ARGUMENTS,
            Method::EventQuery => QUERY_ARGUMENTS,
            Method::EventQueryChanges => QUERY_CHANGES_ARGUMENTS,
            Method::GetAvailability => AVAILABILITY_ARGUMENTS,
            Method::FindSlot => SLOT_ARGUMENTS,
        }
    }
}
