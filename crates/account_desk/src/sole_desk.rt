//! A desk that has its accounts for itself.
ghost use Rattle.std.specs.Prelude.{◌≡◌, ◌<◌, ◌^◌, All, IfOk, length};
ghost use Rattle.account_desk.specs.SoleDesk.{account_at, fresh_account, fresh_accounts, of_desk, shown_of};
ghost use Rattle.account_desk.specs.FreshDesk.{IsSole, fresh_desk};
ghost use Rattle.spec_history.specs.Signed.{written_by};

use account_core::account::Account;
use session_doc::Site;
use spec_batch::desk::{Desk, DeskError};
use spec_books::book::Book;
use spec_calls::call::{Call, Reply};
use spec_time::moment::Moment;
use std::alloc::{AllocError, Global};
use std::marker::Model;
use std::sync::Arc;

/// The author number of all entries.
const AUTHOR: u32 = 0;
/// The most calls that a desk makes.
const MAX_TURNS: u64 = 1 << 40;

/// A desk that has its accounts for itself, so that all their entries are its own. Contracts see the base and the entries of
/// each account, and how many calls were made.
#[derive(Drop)]
pub struct SoleDesk {
    accounts: Vec<Account>,
    turns: u64,
}

impl Model for SoleDesk {
    ghost use Rattle.std.specs.Prelude.{ℕ, List};
    ghost use Rattle.std.specs.Coded.{codes};
    ghost use Rattle.account_desk.specs.SoleDesk.{IsSoleDesk};
    ghost use Rattle.spec_history.specs.Base.{Base};
    ghost use Rattle.spec_json.specs.DataCode.{data_code};
    ghost use Rattle.spec_history.specs.declared.entry.Entry.{Entry};

    ghost Value = { List (Base × List Entry) × ℕ };

    ghost coded = { Prim.hlevel (codes, data_code) };

    ghost view = { λ a. (a.accounts.items, a.turns) };

    ghost invariant = { λ a. IsSoleDesk a.accounts.items a.turns };
}

impl SoleDesk {
    /// A desk over the accounts of a site, in its order, before any call. Takes memory for the accounts and their ids.
    pub fn open(alloc: Global, site: &Site) -> Result<SoleDesk, AllocError>
        ensures { IfOk result (λ d. shown_of d ≡ fresh_desk site.now) }
    {
        Ok(SoleDesk {
            accounts: fresh_accounts(alloc, site)?,
            turns: 0,
        })
    }

    /// A desk over these accounts, whose entries are all its own, before any call. Takes no memory.
    pub fn with(accounts: Vec<Account>) -> SoleDesk
        requires few { length accounts.items < 2 ^ 32 }
        requires own { All (λ a. written_by 0 a.1 ≡ a.1) accounts.items }
        ensures { result ≡ (accounts.items, 0) }
    {
        SoleDesk { accounts, turns: 0 }
    }

    /// The account of a number. Takes no memory.
    pub fn account(&self, n: u32) -> &Account
        requires { n < length self.now.0 }
        ensures { result.now ≡ account_at self.now.0 n }
    {
        &self.accounts[n as usize]
    }

    /// Begins to keep copies of the entries that calls add to each account from here on. Takes no memory.
    pub fn mark(&mut self)
        ensures { self.new ≡ self.old }
    {
        mark_all(&mut self.accounts);
    }

    /// No entry of the accounts is anybody else's than the desk's. A law; it does nothing.
    pub fn all_entries_are_its_own(&self)
        ensures { IsSole (shown_of self.now) }
    {
        let _accounts = &self.accounts;
    }
}

impl Desk for SoleDesk {
    ghost use Rattle.account_desk.specs.SoleDesk.{shown_of};

    ghost shown = { shown_of };

    fn accounts(&self) -> u32 {
        self.accounts.len() as u32
    }

    fn place_now(&self, account: u32) -> u64 {
        match self.accounts.get(account as usize) {
            Some(account) => account.count(),
            None => 0,
        }
    }

    fn call(&mut self, account: u32, call: &Call, moment: Moment) -> Result<Reply, DeskError> {
        if self.turns == MAX_TURNS {
            return Err(DeskError::PassSpent);
        }
        self.turns += 1;
        let turn = self.turns;
        let reply = self.accounts[account as usize].act(AUTHOR, turn, call, moment);
        as_of_desk(reply)
    }
}

/// The accounts of a site, in its order, without entries. Takes memory for the accounts and their ids.
pub fn fresh_accounts(alloc: Global, site: &Site) -> Result<Vec<Account>, AllocError>
    ensures fresh { IfOk result (λ accounts. accounts.items ≡ fresh_accounts site.now) }
    ensures few { IfOk result (λ accounts. length accounts.items < 2 ^ 32) }
{
    let count = site.accounts();
    let mut accounts = Vec::with_capacity(alloc, count as usize)?;
    for n in 0..count {
        accounts.push(open_account(alloc, site, n)?)?;
    }
    Ok(accounts)
}

/// The account of a number of a site, without entries. Takes memory for its id.
pub fn open_account(alloc: Global, site: &Site, n: u32) -> Result<Account, AllocError>
    requires { n < length site.now.accounts }
    ensures { IfOk result (λ a. a ≡ fresh_account site.now n) }
{
    let id = site.account_id(n).copy()?;
    Account::open(alloc, id, Arc::try_clone(site.zones())?, site.generation())
}

fn mark_all(accounts: &mut Vec<Account>)
    ensures { accounts.new.items ≡ accounts.old.items }
{
    for account in accounts.iter_mut() {
        account.mark();
    }
}

fn as_of_desk(reply: Result<Reply, AllocError>) -> Result<Reply, DeskError>
    ensures { result ≡ of_desk reply }
{
    match reply {
        Ok(reply) => Ok(reply),
        Err(_) => Err(DeskError::NoMemory),
    }
}
