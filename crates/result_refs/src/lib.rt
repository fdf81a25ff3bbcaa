//! Result references: arguments that take their value from an earlier response (RFC 8620 section 3.7).
#![tactic(auto)]

mod arguments;
mod behind_sign;
mod forms;
mod path;
mod reference;
mod size;
mod value;

pub use arguments::{ReferenceError, resolve};
