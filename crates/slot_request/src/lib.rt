//! Looks for a slot: reads what is asked for, looks in a room, and tells what was found.
#![tactic(auto)]

mod asked;
mod request;
mod room;
mod told;

pub use asked::read_request;
pub use request::SlotRequest;
pub use room::find_in_room;
pub use told::{slot_tree, start_tree, tried_list};
