//! A desk over two accounts, so that tests see what a batch asks of a desk.
ghost use Rattle.std.specs.Prelude.{◌≡◌, IfOk};
ghost use Rattle.account_desk.specs.SoleDesk.{of_desk};

use crate::accounts::open_account;
use account_core::account::Account;
use spec_batch::desk::{Desk, DeskError};
use spec_books::book::Book;
use spec_calls::call::{Call, Reply};
use spec_json::text::Text;
use spec_time::moment::Moment;
use std::alloc::{AllocError, Global};

/// The most calls that a desk makes.
const MAX_TURNS: u64 = 1 << 40;

/// A desk over two accounts, of which each call is the next turn of both. It makes few calls more.
#[derive(Drop)]
pub struct PairDesk {
    first: Box<Account>,
    second: Box<Account>,
    calls_left: u32,
}

impl PairDesk {
    /// A desk that makes at most so many calls, over accounts of these ids without entries.
    pub fn open(
        alloc: Global,
        first: Text,
        second: Text,
        calls: u32,
    ) -> Result<PairDesk, AllocError>
        ensures { IfOk result (λ d. d.calls_left ≡ calls) }
    {
        Ok(PairDesk {
            first: open_account(alloc, first)?,
            second: open_account(alloc, second)?,
            calls_left: calls,
        })
    }
}

impl Desk for PairDesk {
    ghost use Rattle.desk_rows.specs.Pair.{pair_shown};

    ghost shown = { λ d. pair_shown d.first.value d.second.value d.calls_left };

    fn accounts(&self) -> u32 {
        2
    }

    fn place_now(&self, account: u32) -> u64 {
        match account {
            0 => self.first.count(),
            _ => self.second.count(),
        }
    }

    fn call(&mut self, account: u32, call: &Call, moment: Moment) -> Result<Reply, DeskError> {
        if self.calls_left == 0 {
            return Err(DeskError::PassSpent);
        }
        self.calls_left -= 1;
        let turn = MAX_TURNS - u64::from(self.calls_left);
        if account == 0 {
            as_of_desk(self.first.act(0, turn, call, moment))
        } else {
            as_of_desk(self.second.act(0, turn, call, moment))
        }
    }
}

fn as_of_desk(reply: Result<Reply, AllocError>) -> Result<Reply, DeskError>
    ensures { result ≡ of_desk reply }
{
    match reply {
        Ok(reply) => Ok(reply),
        Err(_) => Err(DeskError::NoMemory),
    }
}
