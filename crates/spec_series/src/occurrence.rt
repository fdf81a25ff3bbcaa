//! Occurrences.
ghost use Rattle.std.specs.Prelude.{◌≡◌};
ghost use Rattle.spec_series.specs.Given.{is_after};

use spec_time::length::Length;
use spec_time::wall::Wall;

/// An occurrence of an event.
#[derive(Clone, Copy, Drop)]
pub struct Occurrence {
    /// The recurrence id, the wall second at which the rules have it begin (RFC 8984 section 4.3.1).
    pub rid: Wall,
    /// The wall second at which it begins.
    pub start: Wall,
    /// How long it lasts.
    pub length: Length,
    /// Whether it takes up the time.
    pub occupying: bool,
}

/// Whether a start and its recurrence id come after `from`, or at it with a recurrence id after `past`, if that is given.
#[tactic(auto, unfolding(crate::specs::Given::is_after))]
pub fn comes_after(start: i64, rid: i64, from: i64, past: Option<i64>) -> bool
    ensures { result ≡ is_after from past start rid }
{
    from < start
        || (start == from
            && match past {
                None => true,
                Some(p) => p < rid,
            })
}
