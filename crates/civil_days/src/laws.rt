//! The laws of the calendar, each the contract of a function that does nothing.
ghost use Rattle.std.specs.Prelude.{ℤ};
ghost use Rattle.spec_time.specs.CivilDay.{HasOneDate, HasSameDateLater};

/// Every day number has exactly one date.
pub fn one_date_a_day()
    ensures { (n : ℤ) → HasOneDate n }
{}

/// Any number of cycles later is the same date, 400 years on for each, and the same day of the week.
pub fn same_date_later()
    ensures { (n q : ℤ) → HasSameDateLater n q }
{}
