//! What an event is: its properties with their tests, its participants, and what both mean.
#![tactic(auto)]

pub mod limits;
pub mod values;
