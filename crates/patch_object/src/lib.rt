//! Pointers into a tree, and patches of a tree (RFC 8620 section 5.3).
#![tactic(auto)]

mod cursor;
mod patch;
mod place;
mod pointer;
mod pointer_set;
mod reader;

pub use patch::{PatchError, apply, apply_to};
pub use pointer::{Pointer, PointerError, lookup};
