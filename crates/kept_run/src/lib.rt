//! The command `kept`: the lines of an input are requests on accounts whose changes are kept before they are answered.
#![tactic(auto)]

pub mod accounts;
pub mod laws;
mod line;
mod lines;
pub mod run;
pub mod status;
mod texts;
