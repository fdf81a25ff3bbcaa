//! The command `slot`: the first quarter of an hour at which a series could be booked in a room of an account that is kept.
#![tactic(auto)]

mod answer;
pub mod laws;
mod refusal;
pub mod run;
mod text;
