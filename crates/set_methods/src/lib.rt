//! Plans of sets (RFC 8620 section 5.3), over any view of an account.
#![tactic(auto)]

mod arguments;
pub mod asked_ids;
mod carry_out;
mod changed;
pub mod copy;
mod created;
mod named_id;
mod objects;
mod operations;
mod parts;
pub mod plan;
pub mod planned;
mod refusal;
mod refused;
mod run;
mod told;
