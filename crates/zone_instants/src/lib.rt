//! The instants of wall seconds in time zones.
#![tactic(auto)]

mod instants;
mod laws;
mod rules;

pub use instants::instant;
pub use laws::instants_lie_near;
pub use rules::{rule_of, rule_of_event};
