//! Moments of UTC, wall seconds of a local clock, and days, with their civil dates.
#![tactic(auto)]

pub mod day;
pub mod length;
pub mod moment;
pub mod wall;
