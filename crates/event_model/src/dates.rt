//! Days and seconds of wall seconds.
ghost use Rattle.std.specs.Prelude.{◌≡◌, ◌<◌, ◌^◌, pos, true, unsigned_abs};
ghost use Rattle.spec_time.specs.Walls.{day_of_wall, is_in_years, second_of_wall};

use spec_time::wall::Wall;

/// The seconds of a day.
const DAY: i64 = 86_400;

/// The day of a wall second.
#[tactic(auto, using(crate::proofs::DateLemmas::day_is_near))]
pub(crate) fn day_of(wall: Wall) -> i64
    requires { is_in_years wall ≡ true }
    ensures value { result ≡ day_of_wall wall }
    ensures near { unsigned_abs result < 2 ^ 41 }
{
    wall.seconds().div_euclid(DAY)
}

/// The second of its day.
pub(crate) fn second_of(wall: Wall) -> i64
    ensures { result ≡ pos (second_of_wall wall) }
{
    wall.seconds().rem_euclid(DAY)
}
