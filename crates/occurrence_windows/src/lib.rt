//! The occurrences of a series that overlap a window of instants.
#![tactic(auto)]

mod laws;
mod lengths;
mod span;
mod walk;

pub use laws::overlaps_are_found;
pub use span::span_of;
pub use walk::{FARTHEST, expanded, matches_window, next_overlapping};
