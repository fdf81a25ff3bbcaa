//! The quarters of an hour between two wall seconds, day by day.
ghost use Rattle.std.specs.Prelude.{◌≡◌, ◌≤ℤ◌, ◌+ℤ◌, ◌*ℤ◌, ◌<◌, ◌^◌, int_lt, pos, true, unsigned_abs};
ghost use Rattle.slot_find.specs.Steps.{IsDayEnd, IsFirstQuarter};
ghost use Rattle.spec_time.specs.Floor.{floor_div};
ghost use Rattle.spec_time.specs.Walls.{day_of_wall, is_in_years};

use spec_time::wall::Wall;

/// The first quarter of an hour from a wall second on. Takes no memory.
pub(crate) fn first_quarter(from: Wall) -> Wall
    requires { is_in_years from ≡ true }
    ensures { IsFirstQuarter from result }
{
    Wall::new(quarter_number(from) * 900)
}

// The number of that quarter, counted from that of 1970-01-01T00:00:00.
fn quarter_number(from: Wall) -> i64
    requires { is_in_years from ≡ true }
    ensures value { result ≡ floor_div (from +ℤ pos 899) 900 }
    ensures size { unsigned_abs result < 2 ^ 42 }
{
    (from.seconds() + 899).div_euclid(900)
}

/// The quarter behind one. Takes no memory.
pub(crate) fn next_quarter(at: Wall) -> Wall
    requires { is_in_years at ≡ true }
    ensures { result ≡ at +ℤ pos 900 }
{
    Wall::new(at.seconds() + 900)
}

/// Whether a wall second lies before another. Takes no memory.
pub(crate) fn is_before(wall: Wall, other: Wall) -> bool
    ensures { result ≡ int_lt wall other }
{
    wall.seconds() < other.seconds()
}

/// The end of the day of a wall second, or what lies in that day and no look goes beyond. Takes no memory.
pub(crate) fn end_of_day(at: Wall, to: Wall) -> Wall
    requires years { is_in_years at ≡ true }
    requires order { at ≤ℤ to }
    ensures { IsDayEnd at to result }
{
    let midnight = midnight_behind(at);
    if is_before(to, midnight) {
        to
    } else {
        midnight
    }
}

// The midnight at which the day of a wall second ends.
fn midnight_behind(at: Wall) -> Wall
    requires { is_in_years at ≡ true }
    ensures { result ≡ (day_of_wall at +ℤ pos 1) *ℤ pos 86400 }
{
    Wall::new((day_of(at) + 1) * 86_400)
}

// The day of a wall second.
fn day_of(at: Wall) -> i64
    requires { is_in_years at ≡ true }
    ensures value { result ≡ day_of_wall at }
    ensures size { unsigned_abs result < 2 ^ 42 }
{
    at.seconds().div_euclid(86_400)
}
