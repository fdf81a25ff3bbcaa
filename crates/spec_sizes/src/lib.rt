//! How many bytes the objects of an account have, and which of its states are answered from, as definitions.
#![tactic(auto)]
