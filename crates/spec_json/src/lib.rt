//! JSON values whose numbers are whole, their texts, pointers into them and patches of them.
#![tactic(auto)]

mod inline;
pub mod lists;
pub mod num;
mod object;
pub mod text;
pub mod tree;
