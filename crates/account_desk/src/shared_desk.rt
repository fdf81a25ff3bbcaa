//! A desk whose accounts other desks share.
ghost use Rattle.std.specs.Prelude.{◌≡◌, ◌<◌, ◌^◌, length, map};
ghost use Rattle.std.specs.Arc.{arc_value};
ghost use Rattle.account_desk.specs.SharedDesk.{greatest_turn, through_pass};

use crate::lock::AccountLock;
use account_lock::locked::CallError;
use spec_batch::desk::{Desk, DeskError};
use spec_calls::call::{Call, Reply};
use spec_time::moment::Moment;
use std::marker::Model;
use std::sync::{Arc, Wait};

/// The most calls that a desk makes.
const MAX_TURNS: u64 = 1 << 40;

/// A desk over accounts that it shares with other desks, each in a lock of its own, of each of which it has one pass. Each has one history, in which the calls of all desks stand.
/// Contracts see the passes, and how many calls were made.
///
/// It has the handle by which its calls wait for their turn.
#[derive(Drop)]
pub struct SharedDesk<W: Wait, L: AccountLock> {
    runtime: W,
    accounts: Arc<Vec<L>>,
    passes: Vec<L::Pass>,
    turns: u64,
}

impl<W: Wait, L: AccountLock> Model for SharedDesk<W, L> {
    ghost use Rattle.std.specs.Prelude.{ℕ, List, map};
    ghost use Rattle.std.specs.Arc.{arc_value};
    ghost use Rattle.std.specs.Coded.{codes};
    ghost use Rattle.spec_json.specs.DataCode.{data_code};
    ghost use Rattle.account_lock.specs.Passes.{PassState};
    ghost use Rattle.account_desk.specs.SharedDesk.{IsSharedDesk};

    ghost Value = { List PassState × ℕ };

    ghost coded = { Prim.hlevel (codes, data_code) };

    ghost view = { λ a. (map L.state a.passes.items, a.turns) };

    ghost invariant = { λ a. IsSharedDesk (map L.lock (arc_value a.accounts).items) (map L.state a.passes.items) a.turns };
}

impl<W: Wait, L: AccountLock> SharedDesk<W, L> {
    /// A desk over these accounts, with a pass of each, in their order. It counts its calls on from the greatest number that one of its passes has made.
    /// Takes no memory.
    pub fn new(runtime: W, accounts: Arc<Vec<L>>, passes: Vec<L::Pass>) -> SharedDesk<W, L>
        requires of_accounts { map (λ p. p.lock) (map L.state passes.items) ≡ map L.lock (arc_value accounts).items }
        requires few { length passes.items < 2 ^ 32 }
        ensures { result ≡ (map L.state passes.items, greatest_turn (map L.state passes.items)) }
    {
        let mut turns = 0;
        for pass in &passes {
            turns = L::turns(pass).max(turns);
        }
        SharedDesk {
            runtime,
            accounts,
            passes,
            turns,
        }
    }
}

impl<W: Wait, L: AccountLock> Desk for SharedDesk<W, L> {
    ghost use Rattle.account_desk.specs.FreshDesk.{account_rules_with};
    ghost use Rattle.account_desk.specs.SharedDesk.{shown_by_passes};

    ghost shown = { shown_by_passes (account_rules_with L.unkept L.unkept_placed) };

    fn accounts(&self) -> u32 {
        self.passes.len() as u32
    }

    fn place_now(&self, account: u32) -> u64 {
        match self.accounts.get(account as usize) {
            Some(lock) => lock.place_now(),
            None => 0,
        }
    }

    fn call(&mut self, account: u32, call: &Call, moment: Moment) -> Result<Reply, DeskError> {
        if self.turns == MAX_TURNS {
            return Err(DeskError::PassSpent);
        }
        self.turns += 1;
        let lock = &self.accounts[account as usize];
        let pass = &mut self.passes[account as usize];
        through_pass(lock.call(&self.runtime, pass, call, moment))
    }
}

// What a pass was answered, as the desk's answer.
fn through_pass(reply: Result<Reply, CallError>) -> Result<Reply, DeskError>
    ensures { result ≡ through_pass reply }
{
    match reply {
        Ok(reply) => Ok(reply),
        Err(CallError::PassSpent) => Err(DeskError::PassSpent),
        Err(CallError::NoMemory) => Err(DeskError::NoMemory),
    }
}
