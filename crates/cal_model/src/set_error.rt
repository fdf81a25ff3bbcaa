//! Why one object of a set was refused.
ghost use Rattle.std.specs.Prelude.{◌≡◌};
ghost use Rattle.cal_model.specs.SetErrors.{set_error_type};

use spec_bookings::clash::Clash;
use spec_json::lists::Texts;
use spec_json::text::Text;

/// Why one object of a set was refused (RFC 8620 section 5.3). It changed nothing.
#[derive(Drop)]
pub enum SetError {
    /// The id names no live object of the kind.
    NotFound,
    /// The same call also destroys the object that it updates.
    WillDestroy,
    /// A key of the patch fails.
    InvalidPatch {
        /// The first key that fails, in byte order; empty where an earlier update of the call names the same object.
        key: Text,
    },
    /// Properties of the object have values that they can't have.
    InvalidProperties {
        /// All of them, in byte order.
        properties: Texts,
    },
    /// The id names an occurrence of an event, which can't be changed by itself.
    Forbidden,
    /// A live event is in the calendar that would be destroyed.
    CalendarHasEvent,
    /// The account would have more than it may.
    OverQuota,
    /// Two occurrences would cover the same second of a resource that the event would book.
    Clashes {
        /// The number of the first such resource's calendar, in order of creation.
        calendar: u64,
        /// The first such second, and whose booking covers it.
        clash: Clash,
    },
}

impl SetError {
    /// The member `type` of the error as clients see it. Takes no memory.
    pub fn name(&self) -> &'static str
        ensures { result.now ≡ set_error_type self.now }
    {
        match self {
            SetError::NotFound => "notFound",
            SetError::WillDestroy => "willDestroy",
            SetError::InvalidPatch { .. } => "invalidPatch",
            SetError::InvalidProperties { .. } => "invalidProperties",
            SetError::Forbidden => "forbidden",
            SetError::CalendarHasEvent => "calendarHasEvent",
            SetError::OverQuota => "overQuota",
            SetError::Clashes { .. } => "clash",
        }
    }
}
