//! The lock, and the calls of its passes.
ghost use Rattle.std.specs.Prelude.{◌≡◌, ◌↔◌, ℕ, ◌+◌, ◌<◌, ◌≤◌, [], Err, Some, IfOk, OnErr, IfErr, drop, length, vec_len, vec_capacity, slice_get};
ghost use Rattle.spec_books.specs.Acting.{Acts};
ghost use Rattle.spec_history.specs.MostTurns.{most_turns};
ghost use Rattle.account_lock.specs.LockSteps.{having_read, having_added, new_pass};
ghost use Rattle.account_lock.specs.declared.lock.Phase.TheVariants.{Idle, Turn};
ghost use Rattle.account_lock.specs.Passes.{PassState, IsAnswered, HasFailed, pass_state, opened_pass};
ghost use Rattle.account_lock.specs.StepNews.{IsSeatOf};
ghost use Rattle.account_lock.specs.declared.locked.CallError.TheVariants.{PassSpent, NoMemory};

use crate::door::go_through;
use crate::pass::Pass;
use crate::rule::LockRule;
use crate::steps::{
    Board, PassSeat, add_entries, await_turn, give_turn, peek_history, read_history, return_book,
    split_pass, take_book, take_ticket,
};
use crate::view::View;
use atomic_table::Table;
use spec_books::book::Book;
use spec_history::stamp::Stamp;
use spec_time::moment::Moment;
use std::alloc::{AllocError, Global};
use std::marker::{Brand, Model};
use std::snapshot::Snapshot;
use std::sync::{Mutex, Wait};

/// The most calls of one pass.
const MAX_TURNS: u64 = 1 << 40;

/// Why a call of a pass wasn't answered.
#[derive(Clone, Copy, Debug, PartialEq, Eq, Drop)]
pub enum CallError {
    /// The pass has made all its calls.
    PassSpent,
    /// There was no memory for the reply or the entries.
    NoMemory,
}

/// A lock round a book. Threads share it and call the book through passes of their own, which take turns by ticket.
/// Contracts see which lock it is.
#[derive(Drop)]
pub struct Locked<B: Book> {
    table: Table<Option<B>, View, Snapshot<B>, LockRule<B>, Global>,
    // Who calls has it: the others wait for it, and so nobody waits with a ticket.
    door: Mutex<()>,
    // Who goes in next has it.
    first: Mutex<()>,
    // Who goes in behind that one has it.
    second: Mutex<()>,
}

impl<B: Book> Model for Locked<B> {
    ghost use Rattle.std.specs.Prelude.{◌≡◌};
    ghost use Rattle.atomic_table.specs.Seated.{TableId, table_id_coded};

    ghost Value = { TableId };

    ghost coded = { table_id_coded };

    ghost view = { λ l. l.table.shared.table_id };

    ghost invariant = { λ l. l.table.shared.table_id.words ≡ 3 };
}

impl<B: Book> Locked<B> {
    /// A lock round the book, with passes 0 and on. Each pass has made no call and has seen the book's entries.
    /// Takes memory for the table and the list of passes.
    pub fn open(
        alloc: Global,
        book: B,
        passes: u32,
    ) -> Result<(Locked<B>, Vec<Pass<B>>), AllocError>
        requires { (1 ≤ passes) × (passes ≤ 256) }
        ensures len { IfOk result (λ r. vec_len r.1 ≡ passes) }
        ensures each { IfOk result (λ r. (k : ℕ) (p : PassState) → slice_get r.1.items k ≡ Some p
            → p ≡ opened_pass r.0 (B.base book) (B.entries book) k) }
    {
        let mut all = Vec::with_capacity(alloc, passes as usize)?;
        let (table, mut seat) = lay_table(alloc, book)?;
        split_others(&table.shared, &mut seat, &mut all, passes);
        all.insert(0, pass_of(seat, 0))?;
        let door = Mutex::new(());
        let first = Mutex::new(());
        let second = Mutex::new(());
        let lock = Locked {
            table,
            door,
            first,
            second,
        };
        Ok((lock, all))
    }

    /// How many entries the history has, as far as that is seen without a turn: a hint, of which nothing is promised. Takes no memory, and waits for nobody.
    pub fn place_now(&self) -> u64 {
        peek_history(&self.table.shared)
    }

    /// Calls the book at a moment, when the pass's turn has come, for which it waits.
    /// Takes what memory the book takes for its call.
    pub fn call<R: Wait>(
        &self,
        rt: &R,
        pass: &mut Pass<B>,
        call: &B::Call,
        moment: Moment,
    ) -> Result<B::Reply, CallError>
        requires { pass.old.lock ≡ self.now }

        ensures answered { IfOk result (λ r. IsAnswered B.answer B.added B.unkept call.now moment r pass.old pass.new) }

        // A pass that has made all its calls stays as it is.
        ensures spent { (result ≡ Err PassSpent) ↔ (pass.old.turns ≡ most_turns) }
        ensures unchanged { IfErr result (λ e. e ≡ PassSpent → pass.new ≡ pass.old) }

        ensures failed { IfErr result (λ e. e ≡ NoMemory → HasFailed pass.old pass.new) }

        // Outside of calls a pass is idle: one that used up a turn has given it back.
        ensures idle { (pass.old.phase ≡ Idle) × (pass.new.phase ≡ Idle) }
    {
        if pass.turns == MAX_TURNS {
            return Err(CallError::PassSpent);
        }
        pass.turns += 1;
        let stamp = Stamp {
            author: pass.number,
            turn: pass.turns,
            moment,
        };
        let _inside = go_through(rt, &self.door, &self.first, &self.second);
        match serve(rt, &self.table.shared, &mut pass.seat, &stamp, call) {
            Ok(reply) => Ok(reply),
            Err(AllocError) => Err(CallError::NoMemory),
        }
    }
}

// Makes one call of the book, with a turn of its own.
fn serve<B: Book, R: Wait>(
    rt: &R,
    board: &Board<B>,
    seat: &mut PassSeat<B>,
    stamp: &Stamp,
    call: &B::Call,
) -> Result<B::Reply, AllocError>
    requires board { IsSeatOf board.now.table_id seat.old.table_id }
    requires idle { (seat.old.me.0.phase ≡ Idle) × (seat.old.me.1 ≡ []) }
    requires turns { seat.old.me.0.turns < most_turns }
    requires stamp { (stamp.now.author ≡ seat.old.me.0.number) × (stamp.now.turn ≡ seat.old.me.0.turns + 1) }
    ensures idle { (seat.new.me.0.phase ≡ Idle) × (seat.new.me.1 ≡ []) }
    ensures answered { IfOk result (λ r. IsAnswered B.answer B.added B.unkept call.now stamp.now.moment r
        (pass_state seat.old.table_id seat.old.me.0) (pass_state seat.new.table_id seat.new.me.0)) }
    ensures failed { OnErr result (HasFailed
        (pass_state seat.old.table_id seat.old.me.0) (pass_state seat.new.table_id seat.new.me.0)) }
{
    let ticket = take_ticket(board, seat);
    await_turn(rt, board, seat, ticket);
    let mut book = take_book(board, seat);
    let reply = act(board, seat, &mut book, stamp, call);
    return_book(board, seat, book);
    give_turn(board, seat);
    reply
}

// Makes one call of the book in hand, and tells the table what it added.
fn act<B: Book>(
    board: &Board<B>,
    seat: &mut PassSeat<B>,
    book: &mut B,
    stamp: &Stamp,
    call: &B::Call,
) -> Result<B::Reply, AllocError>
    requires board { IsSeatOf board.now.table_id seat.old.table_id }
    requires turn { seat.old.me.0.phase ≡ Turn }
    requires stamp { (stamp.now.author ≡ seat.old.me.0.number) × (stamp.now.turn ≡ seat.old.me.0.turns) }
    requires book { (B.base book.old ≡ seat.old.me.0.base) × (B.entries book.old ≡ seat.old.me.0.hand.1) }
    ensures same { (seat.new.table_id ≡ seat.old.table_id) × (seat.new.me.1 ≡ seat.old.me.1) }
    ensures book { (B.base book.new ≡ seat.new.me.0.base) × (B.entries book.new ≡ seat.new.me.0.seen) }
    ensures added { seat.new.me.0 ≡ having_added (having_read seat.old.me.0) (drop (length (B.entries book.old)) (B.entries book.new)) }
    ensures acts { IfOk result (λ r. Acts B.answer B.added B.unkept (B.base book.old) (B.entries book.old) call.now stamp.now r
        (drop (length (B.entries book.old)) (B.entries book.new))) }
    ensures err { OnErr result (B.entries book.new ≡ B.entries book.old) }
{
    let before = read_history(board, seat);
    let reply = book.act(stamp.author, stamp.turn, call, stamp.moment);
    let after = book.count();
    add_entries::<B, Brand>(board, seat, book, after - before);
    reply
}

// A pass that has made no call.
fn pass_of<B: Book>(seat: PassSeat<B>, number: u32) -> Pass<B>
    requires idle { (seat.me.0.phase ≡ Idle) × (seat.me.1 ≡ []) }
    requires new { (seat.me.0.number ≡ number) × (seat.me.0.turns ≡ 0) }
    ensures { result ≡ pass_state seat.table_id seat.me.0 }
{
    Pass {
        seat,
        number,
        turns: 0,
    }
}

// Makes the passes from 1 on.
fn split_others<B: Book>(
    board: &Board<B>,
    seat: &mut PassSeat<B>,
    all: &mut Vec<Pass<B>>,
    passes: u32,
)
    requires board { IsSeatOf board.now.table_id seat.old.table_id }
    requires first { (seat.old.me.0.number ≡ 0) × (seat.old.me.0.splits ≡ 0) }
    requires passes { (1 ≤ passes) × (passes ≤ 256) }
    requires room { (all.old.items ≡ []) × (passes ≤ vec_capacity all.old) }
    ensures same { (seat.new.me.0.phase ≡ seat.old.me.0.phase) × (seat.new.me.1 ≡ seat.old.me.1) }
    ensures state { pass_state seat.new.table_id seat.new.me.0 ≡ pass_state seat.old.table_id seat.old.me.0 }
    ensures len { vec_len all.new + 1 ≡ passes }
    ensures room { vec_capacity all.new ≡ vec_capacity all.old }
    ensures each { (k : ℕ) (p : PassState) → slice_get all.new.items k ≡ Some p
        → p ≡ opened_pass board.now.table_id seat.old.me.0.base seat.old.me.0.opened (k + 1) }
{
    for number in 1..passes {
        let other = split_pass(board, seat);
        all.push_reserved(pass_of(other, number));
    }
}

type LockTable<B> = Table<Option<B>, View, Snapshot<B>, LockRule<B>, Global>;

// The table with the book in its slot, and the seat of pass 0.
fn lay_table<B: Book>(alloc: Global, book: B) -> Result<(LockTable<B>, PassSeat<B>), AllocError>
    ensures table { IfOk result (λ r. r.0.shared.table_id.words ≡ 3) }
    ensures seat { IfOk result (λ r. r.1.table_id ≡ r.0.shared.table_id) }
    ensures view { IfOk result (λ r. r.1.me ≡ (new_pass 0 (B.entries book) (B.base book), [])) }
{
    let opened = Snapshot::of(&book);
    let count = book.count();
    let mut slots = Vec::with_capacity(alloc, 1)?;
    slots.push_reserved(Some(book));
    match Table::new(alloc, &[0, 0, count], slots, &opened) {
        Ok((table, seat)) => Ok((table, seat)),
        Err(_) => Err(AllocError),
    }
}
