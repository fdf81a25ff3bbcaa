//! The field `accounts`.
ghost use Rattle.spec_site.specs.declared.limits.TheConstants.{MAX_ACCOUNTS};
ghost use Rattle.std.specs.Prelude.{◌≡◌, ◌≤◌, [], IfErr, IfOk, Ok, length, map};
ghost use Rattle.spec_site.specs.Configuration.{account_in, accounts_in, has_account, read_behind};
ghost use Rattle.spec_json.specs.TreeData.{data_of};
ghost use Rattle.spec_site.specs.declared.field.Field.TheVariants.{Accounts};
ghost use Rattle.session_doc.specs.Reports.{ReportsField};

use crate::account::Account;
use crate::configuration_error::{ConfigurationError, bad};
use spec_json::text::Text;
use spec_json::tree::Tree;
use spec_site::field::Field;
use spec_site::limits::MAX_ACCOUNTS;
use std::alloc::{AllocError, Global};
use time_text::read_id;

/// The accounts: 1 to 16, each with an id, which is an Id (RFC 8620 section 1.2) of no other, and a name. Takes memory for them.
pub(crate) fn read_accounts(alloc: Global, tree: &Tree) -> Result<Vec<Account>, ConfigurationError>
    ensures ok { IfOk result (λ accounts. accounts_in (data_of tree.now) ≡ Ok accounts.items) }
    ensures err { IfErr result (λ error. ReportsField Accounts error (accounts_in (data_of tree.now))) }
{
    let Some(items) = tree.list_at("accounts") else {
        return Err(bad(Field::Accounts, 0));
    };
    if items.is_empty() || items.len() > MAX_ACCOUNTS {
        return Err(bad(Field::Accounts, 0));
    }
    read_each(alloc, items)
}

fn read_each(alloc: Global, items: &[Tree]) -> Result<Vec<Account>, ConfigurationError>
    requires { length items.now ≤ MAX_ACCOUNTS }
    ensures ok { IfOk result (λ accounts. read_behind account_in [] (map data_of items.now) ≡ Ok accounts.items) }
    ensures err { IfErr result (λ error. ReportsField Accounts error (read_behind account_in [] (map data_of items.now))) }
{
    let mut accounts = Vec::with_capacity(alloc, items.len())?;
    for item in items {
        let Some(account) = read_account(&accounts, item)? else {
            return Err(bad(Field::Accounts, accounts.len() as u32));
        };
        accounts.push(account)?;
    }
    Ok(accounts)
}

// The account that an item tells of, where it may stand behind these.
fn read_account(earlier: &[Account], item: &Tree) -> Result<Option<Account>, AllocError>
    ensures { IfOk result (λ account. account ≡ account_in earlier.now (data_of item.now)) }
{
    let (Some(id), Some(name)) = (item.text_at("id"), item.text_at("name")) else {
        return Ok(None);
    };
    if !read_id(id.as_str().as_bytes()) || has_account(earlier, id) {
        return Ok(None);
    }
    Ok(Some(Account::new(id.copy()?, name.copy()?)))
}

fn has_account(accounts: &[Account], id: &Text) -> bool
    ensures { result ≡ has_account accounts.now id.now }
{
    accounts
        .iter()
        .any(|account| account.id().as_str() == id.as_str())
}
