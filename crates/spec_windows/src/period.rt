//! Periods of time.

/// The instants from `from` up to, but without, `to`.
#[derive(Clone, Copy, Debug, PartialEq, Eq, Drop)]
pub struct Period {
    /// The first instant, in seconds of UTC from 1970.
    pub from: i64,
    /// The instant behind the last one, in seconds of UTC from 1970.
    pub to: i64,
}
