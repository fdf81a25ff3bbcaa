//! What a calendar is, what a call is answered at a history, and which entries it adds.
#![tactic(auto)]

pub mod limits;
pub mod outcome;
pub mod set_error;
pub mod view;
