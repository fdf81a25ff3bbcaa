//! Accounts whose calls meet.
ghost use Rattle.std.specs.Prelude.{◌≡◌, ◌<◌, ◌^◌, IfOk, None, length};
ghost use Rattle.account_desk.specs.SoleDesk.{fresh_accounts};

use crate::meeting::Meeting;
use account_core::account::Account;
use account_desk::lock::AccountLock;
use account_desk::sole_desk::fresh_accounts;
use account_lock::locked::{CallError, Locked};
use account_lock::pass::Pass;
use session_doc::Site;
use spec_books::book::Book;
use spec_calls::call::{Call, Reply};
use spec_time::moment::Moment;
use std::alloc::{AllocError, Global};
use std::marker::Model;
use std::sync::{Arc, Wait};

/// An account whose calls enter a meeting first, while they have the account in hand. Contracts see the account's base and its entries: the meeting has no part in what is answered.
#[derive(Drop)]
pub struct Gated {
    account: Account,
    number: u32,
    meeting: Arc<Meeting>,
}

impl Model for Gated {
    ghost use Rattle.std.specs.Prelude.{List};
    ghost use Rattle.std.specs.Coded.{codes};
    ghost use Rattle.spec_history.specs.Base.{Base};
    ghost use Rattle.spec_json.specs.DataCode.{data_code};
    ghost use Rattle.spec_history.specs.declared.entry.Entry.{Entry};

    ghost Value = { Base × List Entry };

    ghost coded = { Prim.hlevel (codes, data_code) };

    ghost view = { λ a. a.account };
}

impl Book for Gated {
    ghost use Rattle.cal_model.specs.Answer.{answer, added};
    ghost use Rattle.cal_model.specs.AddedEntries.{added_signed};

    type Call = Call;

    type Reply = Reply;

    ghost base = { λ a. a.0 };

    ghost entries = { λ a. a.1 };

    ghost answer = { answer };

    ghost added = { added };

    ghost unkept = { None };

    fn act(
        &mut self,
        author: u32,
        turn: u64,
        call: &Call,
        moment: Moment,
    ) -> Result<Reply, AllocError> {
        self.meeting.enter(self.number);
        self.account.act(author, turn, call, moment)
    }

    fn count(&self) -> u64 {
        self.account.count()
    }

    ghost signed = { added_signed };
}

/// A lock round an account whose calls meet.
#[derive(Drop)]
pub struct GatedLock {
    locked: Locked<Gated>,
}

impl AccountLock for GatedLock {
    type Book = Gated;

    type Pass = Pass<Gated>;

    ghost account = { λ a. a };

    ghost lock = { λ l. l.locked };

    ghost state = { λ p. p };

    ghost unkept = { None };

    ghost unkept_placed = { tt };

    fn open(
        alloc: Global,
        book: Gated,
        passes: u32,
    ) -> Result<(GatedLock, Vec<Pass<Gated>>), AllocError> {
        let (locked, passes) = Locked::open(alloc, book, passes)?;
        Ok((GatedLock { locked }, passes))
    }

    fn turns(pass: &Pass<Gated>) -> u64 {
        pass.turns()
    }

    fn place_now(&self) -> u64 {
        self.locked.place_now()
    }

    fn call<W: Wait>(
        &self,
        runtime: &W,
        pass: &mut Pass<Gated>,
        call: &Call,
        moment: Moment,
    ) -> Result<Reply, CallError> {
        self.locked.call(runtime, pass, call, moment)
    }
}

/// Fresh accounts of a site, whose calls meet.
pub fn gated_accounts(
    alloc: Global,
    site: &Site,
    meeting: &Arc<Meeting>,
) -> Result<Vec<Gated>, AllocError>
    ensures fresh { IfOk result (λ gated. gated.items ≡ fresh_accounts site.now) }
    ensures few { IfOk result (λ gated. length gated.items < 2 ^ 32) }
{
    let accounts = fresh_accounts(alloc, site)?;
    gated_by(alloc, accounts, meeting)
}

// These accounts, whose calls meet.
fn gated_by(
    alloc: Global,
    accounts: Vec<Account>,
    meeting: &Arc<Meeting>,
) -> Result<Vec<Gated>, AllocError>
    requires { length accounts.items < 2 ^ 32 }
    ensures { IfOk result (λ gated. gated.items ≡ accounts.items) }
{
    let mut gated = Vec::new(alloc);
    for account in accounts {
        let number = gated.len() as u32;
        gated.push(Gated {
            account,
            number,
            meeting: Arc::try_clone(meeting)?,
        })?;
    }
    Ok(gated)
}
