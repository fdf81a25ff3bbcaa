//! How users and accounts are found, against the configuration itself.
use session_doc::Site;
use spec_json::text::Text;
use spec_json::tree::Tree;
use std::alloc::{AllocError, Global};

/// What is found otherwise than the configuration has it: its users by name and by token, the ids of its accounts, how many there are, and
/// the generation.
pub fn lookups_differ(
    alloc: Global,
    site: &Site,
    configuration: &Tree,
) -> Result<Option<String>, AllocError> {
    let (Some(Tree::List(users)), Some(Tree::List(accounts))) = (
        configuration.get("users"),
        configuration.get("accounts"),
    ) else {
        return told(alloc, "no users or accounts");
    };
    if !are_found(site, users.items()) {
        return told(alloc, "a user who isn't found by name and token");
    }
    if !are_numbered(site, accounts.items()) {
        return told(alloc, "an account of another number");
    }
    if !is_of_generation(site, configuration) {
        return told(alloc, "another generation");
    }
    let stranger = Text::from_str(alloc, "no user has this one")?;
    if site.user_named(stranger.as_str()).is_some() || site.user_of(&stranger).is_some() {
        return told(alloc, "a user who isn't there");
    }
    Ok(None)
}

fn told(alloc: Global, other: &str) -> Result<Option<String>, AllocError> {
    Ok(Some(String::from_str(alloc, other)?))
}

fn is_of_generation(site: &Site, configuration: &Tree) -> bool {
    match configuration.number_at("generation") {
        Some(generation) => i128::from(site.generation()) == generation.get(),
        None => site.generation() == 0,
    }
}

/// Whether these are the users, each found by name and by token.
fn are_found(site: &Site, users: &[Tree]) -> bool {
    for (number, user) in users.iter().enumerate() {
        let (Some(Tree::Text(name)), Some(Tree::Text(token))) = (
            user.get("name"),
            user.get("token"),
        ) else {
            return false;
        };
        let number = u32::try_from(number).ok();
        if site.user_named(name.as_str()) != number || site.user_of(token) != number {
            return false;
        }
    }
    users.len() == site.users() as usize
}

/// Whether these are the accounts, in order.
fn are_numbered(site: &Site, accounts: &[Tree]) -> bool {
    for number in 0..site.accounts() {
        let Some(account) = accounts.get(number as usize) else {
            return false;
        };
        match account.get("id") {
            Some(Tree::Text(id)) if id.as_str() == site.account_id(number).as_str() => {}
            _ => return false,
        }
    }
    accounts.len() == site.accounts() as usize
}
