//! The least whole number that solves two linear congruences, by Euclid's algorithm.
#![tactic(auto)]

mod congruence;
mod euclid;
mod residue_class;
mod residue_map;

pub use congruence::{Cong, least};
pub use residue_map::{Residues, fill, has_bit, joined, unmet_from};
