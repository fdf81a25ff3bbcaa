//! A workload on an account.
ghost use Rattle.std.specs.Prelude.{◌≡◌, ◌≤◌, ◌+◌, ◌-◌, ◌*◌, ◌^◌, IfOk, List, None, OnOk, pos, count_by, length, map, sum};
ghost use Rattle.workload.specs.Counts.{count_of_ids, is_refused_as_clash, has_created, next_page_state, state_number};
ghost use Rattle.spec_calls.specs.declared.call.Reply.{Reply};
ghost use Rattle.workload.specs.Generated.{page_call, request_calls};
ghost use Rattle.workload.specs.Work.{ArePages, IsWork, PagesLead, with_call, with_calls, replies};

use crate::calls::{drawn, page_call, request_call, room_call};
use crate::counts::{Page, outcome_of, page_of};
use crate::numbers::Numbers;
use spec_books::book::Book;
use spec_calls::call::{Call, Reply};
use spec_json::text::Text;
use spec_time::moment::Moment;
use std::alloc::{AllocError, Global};

/// The author number of all entries.
const AUTHOR: u32 = 0;

/// Creates a room on an account, makes so many requests by the numbers of a generator, which begins with `number`, and asks for what changed.
///
/// Every call has the moment 0. The account is one that keeps what every call adds. Takes memory for the calls, and for what the account keeps and replies.
pub fn work<B: Book<Call = Call, Reply = Reply>>(
    alloc: Global,
    account: &mut B,
    number: u32,
    size: u32,
) -> Result<Numbers, AllocError>
    requires { PagesLead B.answer B.added × (B.unkept ≡ None) }
    ensures { IfOk result (λ n. IsWork B.answer B.added (B.base account.old) (B.entries account.old) number size n) }
{
    ask(account, 1, room_call(alloc)?)?;
    let (bookings, clashes) = make_requests(alloc, account, number, size)?;
    let entries = account.count();
    let changed = count_changed(alloc, account, Text::from_str(alloc, "0-0")?)?;
    Ok(Numbers {
        bookings,
        clashes,
        entries,
        changed,
    })
}

// Makes so many requests, and counts those whose event was created, and those whose event was refused as a clash.
fn make_requests<B: Book<Call = Call, Reply = Reply>>(
    alloc: Global,
    account: &mut B,
    number: u32,
    size: u32,
) -> Result<(u64, u64), AllocError>
    requires { B.unkept ≡ None }
    ensures base { B.base account.new ≡ B.base account.old }
    ensures bookings { IfOk result (λ n. n.0 ≡ count_by has_created (replies B.answer B.added (B.base account.old) 2 (B.entries account.old) (request_calls 1 number size))) }
    ensures clashes { IfOk result (λ n. n.1 ≡ count_by is_refused_as_clash (replies B.answer B.added (B.base account.old) 2 (B.entries account.old) (request_calls 1 number size))) }
    ensures history { IfOk result (λ n. B.entries account.new ≡ with_calls B.answer B.added (B.base account.old) 2 (B.entries account.old) (request_calls 1 number size)) }
{
    let mut last = number;
    let mut bookings = 0;
    let mut clashes = 0;
    'requests: for done in 0..size {
        let a = drawn(last);
        let b = drawn(a);
        let c = drawn(b);
        let call = request_call(alloc, done + 1, a, b, c)?;
        let reply = ask(account, u64::from(done) + 2, call)?;
        let outcome = outcome_of(reply);
        bookings += u64::from(outcome.is_created);
        clashes += u64::from(outcome.is_clash);
        last = c;
    }
    Ok((bookings, clashes))
}

// Asks for the pages of changes since a state, and counts their ids.
fn count_changed<B: Book<Call = Call, Reply = Reply>>(
    alloc: Global,
    account: &mut B,
    since: Text,
) -> Result<u64, AllocError>
    requires lead { PagesLead B.answer B.added }
    requires kept { B.unkept ≡ None }
    requires short { length (B.entries account.old) ≤ 2 ^ 40 }
    ensures pages { IfOk result (λ n. (pages : List Reply) × ArePages B.answer B.added (B.base account.old) (B.entries account.old) since pages × (n ≡ sum (map count_of_ids pages))) }
    ensures few { IfOk result (λ n. n ≤ 500 * (length (B.entries account.old) - state_number since + 1)) }
{
    let Page { ids, next } = ask_page(alloc, account, since)?;
    match next {
        Some(state) => Ok(ids + count_changed(alloc, account, state)?),
        None => Ok(ids),
    }
}

// Asks for the page of changes since a state.
fn ask_page<B: Book<Call = Call, Reply = Reply>>(
    alloc: Global,
    account: &mut B,
    since: Text,
) -> Result<Page, AllocError>
    requires lead { PagesLead B.answer B.added }
    requires kept { B.unkept ≡ None }
    ensures base { B.base account.new ≡ B.base account.old }
    ensures entries { OnOk result (B.entries account.new ≡ B.entries account.old) }
    ensures ids { IfOk result (λ page. page.ids ≡ count_of_ids (B.answer (B.base account.old) (B.entries account.old) (page_call since) (pos 0))) }
    ensures next { IfOk result (λ page. page.next ≡ next_page_state (B.answer (B.base account.old) (B.entries account.old) (page_call since) (pos 0))) }
{
    // The call adds nothing, so its turn has no part in anything.
    let reply = ask(account, 0, page_call(alloc, since))?;
    page_of(alloc, reply)
}

// Makes a call on the account, at the moment 0.
fn ask<B: Book<Call = Call, Reply = Reply>>(
    account: &mut B,
    turn: u64,
    call: Call,
) -> Result<Reply, AllocError>
    requires { B.unkept ≡ None }
    ensures base { B.base account.new ≡ B.base account.old }
    ensures reply { IfOk result (λ r. r ≡ B.answer (B.base account.old) (B.entries account.old) call (pos 0)) }
    ensures grown { OnOk result (B.entries account.new ≡ with_call B.answer B.added (B.base account.old) turn (B.entries account.old) call) }
{
    account.act(AUTHOR, turn, &call, Moment::new(0))
}
