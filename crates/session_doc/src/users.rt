//! The field `users`.
ghost use Rattle.spec_site.specs.declared.limits.TheConstants.{MAX_ACCOUNTS, MAX_USERS};
ghost use Rattle.std.specs.Prelude.{◌≡◌, ◌≤◌, ◌&&◌, [], IfErr, IfOk, Ok, codes, length, map, option_map};
ghost use Rattle.std.specs.List.{list_any};
ghost use Rattle.std.specs.Str.{bytes_eq};
ghost use Rattle.spec_core.specs.Names.{is_token};
ghost use Rattle.spec_json.specs.Parts.{text_at};
ghost use Rattle.spec_site.specs.Configuration.{is_good_token, is_good_user_name, passing, read_behind, user_in, users_in};
ghost use Rattle.spec_core.specs.Names.{is_name};
ghost use Rattle.spec_json.specs.TreeData.{data_of};
ghost use Rattle.spec_site.specs.declared.field.Field.TheVariants.{Users};
ghost use Rattle.session_doc.specs.Reports.{ReportsField};

use crate::account::Account;
use crate::configuration_error::{ConfigurationError, bad};
use crate::grants::read_grants;
use crate::site_user::SiteUser;
use spec_core::names::{is_name, is_token};
use spec_core::user::User;
use spec_json::text::Text;
use spec_json::tree::Tree;
use spec_site::field::Field;
use spec_site::limits::MAX_USERS;
use std::alloc::{AllocError, Global};

/// The users: 1 to 64, each with a name of 1 to 255 bytes and a token of 1 to 255 bytes from `!` to `~`, both of no
/// other, and the accounts that the user may use. Takes memory for them.
pub(crate) fn read_users(
    alloc: Global,
    accounts: &[Account],
    tree: &Tree,
) -> Result<Vec<SiteUser>, ConfigurationError>
    requires { length accounts.now ≤ MAX_ACCOUNTS }
    ensures ok { IfOk result (λ users. users_in accounts.now (data_of tree.now) ≡ Ok users.items) }
    ensures err { IfErr result (λ error. ReportsField Users error (users_in accounts.now (data_of tree.now))) }
{
    let Some(items) = tree.list_at("users") else {
        return Err(bad(Field::Users, 0));
    };
    if items.is_empty() || items.len() > MAX_USERS {
        return Err(bad(Field::Users, 0));
    }
    read_each(alloc, accounts, items)
}

fn read_each(
    alloc: Global,
    accounts: &[Account],
    items: &[Tree],
) -> Result<Vec<SiteUser>, ConfigurationError>
    requires few_accounts { length accounts.now ≤ MAX_ACCOUNTS }
    requires few { length items.now ≤ MAX_USERS }
    ensures ok { IfOk result (λ users. read_behind (user_in accounts.now) [] (map data_of items.now) ≡ Ok users.items) }
    ensures err { IfErr result (λ error. ReportsField Users error (read_behind (user_in accounts.now) [] (map data_of items.now))) }
{
    let mut users = Vec::with_capacity(alloc, items.len())?;
    for item in items {
        let Some(user) = read_user(alloc, accounts, &users, item)? else {
            return Err(bad(Field::Users, users.len() as u32));
        };
        users.push(user)?;
    }
    Ok(users)
}

// The user that an item tells of, where one may stand behind these.
fn read_user(
    alloc: Global,
    accounts: &[Account],
    earlier: &[SiteUser],
    item: &Tree,
) -> Result<Option<SiteUser>, AllocError>
    requires { length accounts.now ≤ MAX_ACCOUNTS }
    ensures { IfOk result (λ user. user ≡ user_in accounts.now earlier.now (data_of item.now)) }
{
    let Some(name) = good_name(earlier, item) else {
        return Ok(None);
    };
    let Some(token) = good_token(earlier, item) else {
        return Ok(None);
    };
    let Some(grants) = read_grants(alloc, accounts, item)? else {
        return Ok(None);
    };
    let user = User {
        name: name.copy()?,
        grants,
    };
    Ok(Some(SiteUser::new(token.copy()?, user)))
}

// The name of the user that an item tells of, where it may stand behind these.
fn good_name<'a>(earlier: &[SiteUser], item: &'a Tree) -> Option<&'a Text>
    ensures { option_map (λ name. name.now) result ≡ passing (is_good_user_name earlier.now) (text_at (codes "name") (data_of item.now)) }
{
    let Some(name) = item.text_at("name") else {
        return None;
    };
    if is_name(name.as_str()) && !has_name(earlier, name) {
        Some(name)
    } else {
        None
    }
}

fn has_name(users: &[SiteUser], name: &Text) -> bool
    ensures { result ≡ list_any (λ u. bytes_eq u.user.name name.now) users.now }
{
    users
        .iter()
        .any(|user| user.user().name.as_str() == name.as_str())
}

// The token of the user that an item tells of, where it may stand behind these.
fn good_token<'a>(earlier: &[SiteUser], item: &'a Tree) -> Option<&'a Text>
    ensures { option_map (λ token. token.now) result ≡ passing (is_good_token earlier.now) (text_at (codes "token") (data_of item.now)) }
{
    let Some(token) = item.text_at("token") else {
        return None;
    };
    if is_token(token.as_str().as_bytes()) && !has_token(earlier, token) {
        Some(token)
    } else {
        None
    }
}

fn has_token(users: &[SiteUser], token: &Text) -> bool
    ensures { result ≡ list_any (λ u. bytes_eq u.token token.now) users.now }
{
    users
        .iter()
        .any(|user| user.token().as_str() == token.as_str())
}
