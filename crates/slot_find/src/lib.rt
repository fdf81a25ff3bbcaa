//! Finds the first quarter of an hour at which a series could be booked in a resource, and what stands against each earlier one, over all
//! days without end.
#![tactic(auto)]

mod day;
mod look;
mod quarters;

pub use look::find;
