//! What a configuration says: accounts, users and time zones; and the session object of a user.
#![tactic(auto)]

pub mod field;
pub mod limits;
