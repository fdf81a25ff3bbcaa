//! The days that recurrence rules give, and the occurrences of a series, on all days without end.
//!
//! Nothing here takes memory. Days count from 1970-01-01; rules and series are those of `spec_series`, whose types keep their
//! limits.
#![tactic(auto)]

mod bound;
mod dated;
mod laws;
mod matching;
mod months;
mod moved;
mod next_item;
mod occurs;
mod series;
mod set;
mod skip;
mod unasked;
mod walk;

pub use bound::Bound;
pub use laws::rules_repeat;
pub use moved::{moved_on, unmoved_days};
pub use occurs::kept_on;
pub use series::{next_from, next_until};
pub use set::{last_day, occurs_on};
pub use skip::unkept_days;
pub use walk::period;
