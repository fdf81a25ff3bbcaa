//! The outside: where bytes come from and go to, files, and the time.
#![tactic(auto)]

pub mod clock;
pub mod failing_calls;
pub mod fault;
pub mod memory_clock;
pub mod memory_opener;
pub mod memory_sink;
pub mod memory_source;
pub mod opener;
pub mod room_sink;
pub mod sink;
pub mod source;
pub mod streams;
pub mod system_clock;
pub mod system_files;
