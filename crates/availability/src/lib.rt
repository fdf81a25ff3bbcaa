//! The busy periods of a window.
#![tactic(auto)]

mod busy;
mod laws;
mod periods;

pub use busy::Busy;
pub use laws::runs_are_determined;
