//! Locks round accounts.
ghost use Rattle.std.specs.Prelude.{◌≡◌, ◌≤◌, ◌↔◌, ℕ, List, Err, IfErr, IfOk, None, Option, Some, length, slice_get};
ghost use Rattle.account_desk.specs.FreshDesk.{IsPlaced};
ghost use Rattle.account_lock.specs.Passes.{HasFailed, IsAnswered, PassState, opened_pass};
ghost use Rattle.account_lock.specs.declared.locked.CallError.TheVariants.{NoMemory, PassSpent};
ghost use Rattle.atomic_table.specs.Seated.{TableId};
ghost use Rattle.cal_model.specs.Answer.{added, answer};
ghost use Rattle.spec_calls.specs.declared.call.Reply.{Reply};
ghost use Rattle.spec_history.specs.Base.{Base};
ghost use Rattle.spec_history.specs.MostTurns.{most_turns};
ghost use Rattle.spec_history.specs.declared.entry.Entry.{Entry};

use account_core::account::Account;
use account_lock::locked::{CallError, Locked};
use account_lock::pass::Pass;
use spec_calls::call::{Call, Reply};
use spec_time::moment::Moment;
use std::alloc::{AllocError, Global};
use std::sync::Wait;

/// A lock round a book that answers as an account of calendars and events does, and grows as it does.
///
/// Contracts see base and entries of the book, which lock it is, and the states of its passes. It doesn't ask to be sent to another thread: what a desk calls
/// may not rest on that of a type parameter.
pub trait AccountLock: Drop + Sized {
    /// What the lock is round.
    type Book: Drop;

    /// A pass of the lock.
    type Pass: Drop;

    ghost account: { Self.Book → Base × List Entry };

    ghost lock: { Self → TableId };

    ghost state: { Self.Pass → PassState };

    // The reply at a history to a call whose entries could not be kept. None where the entries of every call are.
    ghost unkept: { Option (List Entry → Reply) };

    // That reply says how many entries went before.
    ghost unkept_placed: { IsPlaced unkept };

    /// A lock round a book, with passes 0 and on. Each pass has made no call and has seen the book's entries.
    /// Takes memory for the lock and the list of passes.
    fn open(
        alloc: Global,
        book: Self::Book,
        passes: u32,
    ) -> Result<(Self, Vec<Self::Pass>), AllocError>
        requires { (1 ≤ passes) × (passes ≤ 256) }
        ensures count { IfOk result (λ r. length r.1.items ≡ passes) }
        ensures each { IfOk result (λ r. (k : ℕ) (p : Self.Pass) → slice_get r.1.items k ≡ Some p
            → state p ≡ opened_pass (lock r.0) (account book).0 (account book).1 k) };

    /// How many calls a pass has made: at most 2^40. Takes no memory.
    fn turns(pass: &Self::Pass) -> u64
        ensures is { result ≡ (state pass.now).turns }
        ensures few { result ≤ most_turns };

    /// How many entries the book's history has, as far as that is seen without a turn: a hint, of which nothing is promised. Takes no memory, and waits for nobody.
    fn place_now(&self) -> u64;

    /// Calls the book at a moment, when the turn of a pass of this lock has come, for which it waits.
    /// Takes what memory the book takes for its call.
    fn call<W: Wait>(
        &self,
        runtime: &W,
        pass: &mut Self::Pass,
        call: &Call,
        moment: Moment,
    ) -> Result<Reply, CallError>
        requires { (state pass.old).lock ≡ lock self.now }
        ensures answered { IfOk result (λ r. IsAnswered answer added unkept call.now moment r (state pass.old) (state pass.new)) }
        ensures spent { (result ≡ Err PassSpent) ↔ ((state pass.old).turns ≡ most_turns) }
        ensures failed { IfErr result (λ e. e ≡ NoMemory → HasFailed (state pass.old) (state pass.new)) };
}

impl AccountLock for Locked<Account> {
    type Book = Account;

    type Pass = Pass<Account>;

    ghost account = { λ a. a };

    ghost lock = { λ l. l };

    ghost state = { λ p. p };

    ghost unkept = { None };

    ghost unkept_placed = { tt };

    fn open(
        alloc: Global,
        book: Account,
        passes: u32,
    ) -> Result<(Locked<Account>, Vec<Pass<Account>>), AllocError> {
        Locked::open(alloc, book, passes)
    }

    fn turns(pass: &Pass<Account>) -> u64 {
        pass.turns()
    }

    fn place_now(&self) -> u64 {
        Locked::place_now(self)
    }

    fn call<W: Wait>(
        &self,
        runtime: &W,
        pass: &mut Pass<Account>,
        call: &Call,
        moment: Moment,
    ) -> Result<Reply, CallError> {
        Locked::call(self, runtime, pass, call, moment)
    }
}
