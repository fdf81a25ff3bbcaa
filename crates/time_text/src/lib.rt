//! Readers and writers of the texts that JMAP gives a grammar to.
#![tactic(auto)]

mod duration;
mod fields;
mod id;
mod laws;
mod local;
mod number;
mod object_id;
mod state;
mod text;

pub use duration::read_duration;
pub use id::read_id;
pub use laws::{written_states_are_read, written_times_are_read, years_have_four_digits};
pub use local::{is_in_years, read_local, read_utc};
pub use number::read_number;
pub use object_id::{object_id_text, read_object_id};
pub use state::{number_named, read_state, state_text};
pub use text::{local_text, utc_text};
