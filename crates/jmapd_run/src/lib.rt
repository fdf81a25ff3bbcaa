//! What the program `jmapd` runs: the commands, over any opener, input, output and clock.
#![tactic(auto)]

mod batch;
pub mod kept_status;
pub mod laws;
pub mod run;
pub mod start;
pub mod status;
mod stdio;
mod work;
