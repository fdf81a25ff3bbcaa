//! Sites: the users and accounts that a configuration tells of, and the session object of a user.
#![tactic(auto)]

mod account;
mod accounts;
mod base_url;
mod built_in;
mod capabilities;
mod configuration;
mod configuration_error;
mod generation;
mod grants;
mod optional_list;
mod session;
mod session_accounts;
mod site;
mod site_user;
mod users;
mod web_socket_url;
mod zones;

pub use configuration_error::ConfigurationError;
pub use site::Site;
