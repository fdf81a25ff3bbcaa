//! What an account holds by its history, each object found by its number, at any state that is answered from.
#![tactic(auto)]

mod kept;
mod opening;
mod store;

pub use kept::KeptEvent;
pub use opening::OpeningStore;
pub use store::Store;
