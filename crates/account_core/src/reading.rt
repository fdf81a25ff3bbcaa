//! What was read of changes when they were staged.
ghost use Rattle.std.specs.Prelude.{◌≤◌};
ghost use Rattle.cal_model.specs.declared.limits.TheConstants.{MAX_OBJECT_BYTES};

use spec_series::series::Series;

/// What was read of a change when it was staged.
#[derive(Drop)]
pub(crate) struct Reading {
    /// The bytes of its object's compact text, 0 for a removal.
    pub size: u64,
    /// The series of the event that it puts (RFC 8984 section 4.3).
    pub series: Option<Series>,
    ghost small: { size ≤ MAX_OBJECT_BYTES },
}
