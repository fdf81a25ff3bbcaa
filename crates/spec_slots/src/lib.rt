//! Slots: the quarters of an hour at which a series could be booked in a resource, the first of them, and what stands against each earlier
//! one.
#![tactic(auto)]

pub mod laws;
pub mod limits;
pub mod slot;
pub mod wish;
