//! What answers calls on the accounts of a site, for itself or shared with others, and what follows where all entries are its own.
#![tactic(auto)]

pub mod laws;
pub mod lock;
pub mod shared_desk;
pub mod sole_desk;
