//! A workload: events that numbers of a generator give, booked one after the other in one room, and what came of them.
#![tactic(auto)]

mod calls;
mod counts;
pub mod numbers;
pub mod work;
