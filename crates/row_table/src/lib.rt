//! Tables of worked rows, which programs read on standard input: their rows, the texts of their lines, and the count of rows.
#![tactic(auto)]

pub mod answers;
pub mod files;
pub mod line;
pub mod members;
pub mod plain_event;
pub mod row;
pub mod table;
pub mod tally;
pub mod trial;
pub mod words;
