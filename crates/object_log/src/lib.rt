//! The objects of one kind, with the newest of their changes.
#![tactic(auto)]

mod changes;
mod laws;
mod log;
mod page;
mod put;
mod slots;
mod standing;
mod touched;
mod window;

pub use changes::ChangesError;
pub use laws::{
    earlier_states_show_objects, logs_show_histories, pages_are_longest, pages_lead,
    states_show_objects,
};
pub use log::ObjectLog;
pub use page::Page;
pub use put::Put;
pub use slots::IdSlot;
pub use window::{WINDOW, WINDOW_BYTES};
