//! Instants of local clocks, the windows of instants that occurrences overlap, and busy periods, as plain data with its definitions.
#![tactic(auto)]

pub mod period;
pub mod window;
