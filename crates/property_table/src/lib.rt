//! Tables of properties: which objects pass one, and all names at which another fails.
#![tactic(auto)]

pub mod laws;
pub mod names;
pub mod table;
pub mod values;
