//! The law of calendars that are stored and read.
ghost use Rattle.std.specs.Prelude.{◌≡◌};
ghost use Rattle.cal_model.specs.Calendar.{CalendarProperties, calendar_in, stored};
ghost use Rattle.spec_json.specs.Data.{members_of, object};

/// The object that is stored of a calendar means that calendar.
pub fn stored_calendars_are_read()
    ensures { (c : CalendarProperties) → calendar_in (object (members_of (stored c))) ≡ c }
{}
