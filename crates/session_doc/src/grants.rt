//! The accounts that a user of a configuration may use.
ghost use Rattle.spec_site.specs.declared.limits.TheConstants.{MAX_ACCOUNTS};
ghost use Rattle.std.specs.Prelude.{◌≡◌, ◌≤◌, [], IfOk, IfSome, Some, ◌<◌, if◌then◌else◌, length, map, option_map, position};
ghost use Rattle.std.specs.Str.{bytes_eq};
ghost use Rattle.spec_site.specs.Configuration.{grant_in, grants_in, has_grant, restrict, restrict_all, user_grants};
ghost use Rattle.spec_json.specs.TreeData.{data_of};

use crate::account::Account;
use crate::optional_list::optional_list_at;
use spec_core::user::{Grant, Grants};
use spec_json::text::Text;
use spec_json::tree::Tree;
use std::alloc::{AllocError, Global};

/// The grants of a user, in the order of `accounts`, a list of distinct ids; `readOnly` may name some of these, each once.
///
/// Takes memory for them.
pub(crate) fn read_grants(
    alloc: Global,
    accounts: &[Account],
    item: &Tree,
) -> Result<Option<Grants>, AllocError>
    requires { length accounts.now ≤ MAX_ACCOUNTS }
    ensures { IfOk result (λ grants. grants ≡ user_grants accounts.now (data_of item.now)) }
{
    let Some(read_only) = optional_list_at(item, "readOnly") else {
        return Ok(None);
    };
    let Some(ids) = item.list_at("accounts") else {
        return Ok(None);
    };
    let Some(grants) = read_each(alloc, accounts, ids)? else {
        return Ok(None);
    };
    match restrict_all(grants, read_only) {
        Some(grants) => Ok(Some(Grants::new(grants))),
        None => Ok(None),
    }
}

fn read_each(
    alloc: Global,
    accounts: &[Account],
    ids: &[Tree],
) -> Result<Option<Vec<Grant>>, AllocError>
    requires { length accounts.now ≤ MAX_ACCOUNTS }
    ensures { IfOk result (λ grants. option_map (λ v. v.items) grants ≡ grants_in accounts.now (map data_of ids.now)) }
{
    let mut grants = Vec::with_capacity(alloc, ids.len())?;
    for id in ids {
        let Some(grant) = read_grant(accounts, &grants, id)? else {
            return Ok(None);
        };
        grants.push(grant)?;
    }
    Ok(Some(grants))
}

// The grant of the account that an item names, where it may stand behind these.
fn read_grant(
    accounts: &[Account],
    earlier: &[Grant],
    item: &Tree,
) -> Result<Option<Grant>, AllocError>
    requires { length accounts.now ≤ MAX_ACCOUNTS }
    ensures { IfOk result (λ grant. grant ≡ grant_in accounts.now earlier.now (data_of item.now)) }
{
    let Tree::Text(id) = item else {
        return Ok(None);
    };
    if has_grant(earlier, id) {
        return Ok(None);
    }
    let Some(account) = place_of_account(accounts, id) else {
        return Ok(None);
    };
    Ok(Some(Grant {
        account: account as u32,
        id: id.copy()?,
        read_only: false,
    }))
}

fn has_grant(grants: &[Grant], id: &Text) -> bool
    ensures { result ≡ has_grant grants.now id.now }
{
    grants.iter().any(|grant| grant.id.as_str() == id.as_str())
}

fn place_of_account(accounts: &[Account], id: &Text) -> Option<usize>
    ensures place { result ≡ position (λ a. bytes_eq a.id id.now) accounts.now }
    ensures there { IfSome result (λ n. n < length accounts.now) }
{
    accounts
        .iter()
        .position(|account| account.id().as_str() == id.as_str())
}

// The grants with those of these ids for reading alone.
fn restrict_all(grants: Vec<Grant>, ids: &[Tree]) -> Option<Vec<Grant>>
    ensures { option_map (λ v. v.items) result ≡ restrict_all (map data_of ids.now) grants.items }
{
    let mut grants = grants;
    for id in ids {
        let Tree::Text(id) = id else {
            return None;
        };
        if !restrict(&mut grants, id) {
            return None;
        }
    }
    Some(grants)
}

// Makes the grant of an id one for reading alone, where there is one that isn't so yet.
fn restrict(grants: &mut [Grant], id: &Text) -> bool
    ensures { (if result then Some grants.new else None) ≡ restrict id.now grants.old }
{
    let Some(n) = place_of_grant(grants, id) else {
        return false;
    };
    let grant = &mut grants[n];
    if grant.read_only {
        return false;
    }
    grant.read_only = true;
    true
}

fn place_of_grant(grants: &[Grant], id: &Text) -> Option<usize>
    ensures place { result ≡ position (λ g. bytes_eq g.id id.now) grants.now }
    ensures there { IfSome result (λ n. n < length grants.now) }
{
    grants
        .iter()
        .position(|grant| grant.id.as_str() == id.as_str())
}
