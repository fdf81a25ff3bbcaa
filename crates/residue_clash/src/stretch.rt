//! A stretch of wall seconds that is held against a series.
ghost use Rattle.std.specs.Prelude.{◌<◌, ◌≤◌, ◌^◌, unsigned_abs};

/// At most a week of wall seconds, and the occurrence that they aren't held against.
#[derive(Drop)]
pub struct Stretch {
    /// The first wall second.
    pub start: i64,
    /// How many seconds it lasts.
    pub seconds: u64,
    /// The recurrence id of the occurrence to leave out, if any.
    pub except: Option<i64>,
    pub ghost start_in: { unsigned_abs start < 2 ^ 50 },
    pub ghost seconds_in: { seconds ≤ 604800 },
}
