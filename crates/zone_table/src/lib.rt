//! The time zones of a configuration, by name.
#![tactic(auto)]

mod zone;
mod zones;

pub use zone::Zone;
pub use zones::{ZoneError, Zones};
