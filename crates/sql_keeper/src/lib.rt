//! A keeper in a database of SQLite, in one file.
#![tactic(auto)]

pub mod file_keeper;
mod floors;
mod insert;
pub mod open;
mod owner;
mod read_back;
mod reading;
mod rows;
pub mod sql_keeper;
mod tables;
#[cfg(test)]
mod tests;
