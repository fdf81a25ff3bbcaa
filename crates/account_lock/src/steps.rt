//! The eight kinds of step, each as a function.
ghost use Rattle.std.specs.Prelude.{◌≡◌, ◌^◌, ◌<◌, [], ◌++◌, length};
ghost use Rattle.account_lock.specs.LockSteps.{with_ticket, having_read, having_added, out_of_line, having_split, split_off, MayCome, takes_ticket, looks, takes_book, reads_count, adds_entries, returns_book, gives_turn, splits_pass};
ghost use Rattle.account_lock.specs.StepNews.{IsSeatOf, HasBook, HasEmptySlot, HasTurn};

use crate::rule::{
    AddEntries, Growth, LeaveLine, LockRule, Look, ReadCount, SplitPass, TakeTicket,
};
use crate::view::View;
use atomic_table::{Seat, Shared};
use spec_books::book::Book;
use std::snapshot::Snapshot;
use std::sync::Wait;
use std::thread;

/// A pass's place at the table.
pub type PassSeat<B> = Seat<Option<B>, View>;

/// The table as all passes share it.
pub type Board<B> = Shared<Option<B>, View, Snapshot<B>, LockRule<B>>;

/// The word that has the next ticket.
const TICKET: usize = 0;

/// The word that has the ticket which is served.
const SERVING: usize = 1;

/// The word that has the length of the history.
const COUNT: usize = 2;

/// Takes the next ticket, and gives its number.
pub(crate) fn take_ticket<B: Book>(board: &Board<B>, seat: &mut PassSeat<B>) -> u64
    requires board { IsSeatOf board.now.table_id seat.old.table_id }
    requires may { MayCome B.entries B.base takes_ticket seat.old.me.0 }
    ensures same { (seat.new.table_id ≡ seat.old.table_id) × (seat.new.id ≡ seat.old.id) }
    ensures view { seat.new.me ≡ (with_ticket seat.old.me.0 result, seat.old.me.1) }
{
    board.fetch_add::<TakeTicket>(seat, TICKET, 1)
}

/// Waits until the ticket is served, and takes the slot with the book. Who took the ticket behind the lock's door finds it
/// served at the first look.
pub(crate) fn await_turn<B: Book, R: Wait>(
    rt: &R,
    board: &Board<B>,
    seat: &mut PassSeat<B>,
    ticket: u64,
)
    requires board { IsSeatOf board.now.table_id seat.old.table_id }
    requires may { MayCome B.entries B.base looks seat.old.me.0 }
    requires ticket { seat.old.me.0.ticket ≡ ticket }
    ensures same { (seat.new.table_id ≡ seat.old.table_id) × (seat.new.id ≡ seat.old.id) }
    ensures turn { HasTurn B.entries B.base seat.old.me seat.new.me }
{
    for _ in rt.forever() {
        let served = board.load::<Look>(seat, SERVING);
        if served == ticket {
            return;
        }
        thread::yield_now();
    }
    unreachable!()
}

/// Takes the book out of the slot.
pub(crate) fn take_book<B: Book>(board: &Board<B>, seat: &mut PassSeat<B>) -> B
    requires board { IsSeatOf board.now.table_id seat.old.table_id }
    requires may { MayCome B.entries B.base takes_book seat.old.me.0 }
    requires full { (b : B) × HasBook seat.old.me.1 b }
    ensures same { (seat.new.table_id ≡ seat.old.table_id) × (seat.new.id ≡ seat.old.id) }
    ensures book { HasBook seat.old.me.1 result }
    ensures left { (seat.new.me.0 ≡ seat.old.me.0) × HasEmptySlot seat.new.me.1 }
{
    board.exchange(seat, 0, None).unwrap()
}

/// Reads how long the history is.
pub(crate) fn read_history<B: Book>(board: &Board<B>, seat: &mut PassSeat<B>) -> u64
    requires board { IsSeatOf board.now.table_id seat.old.table_id }
    requires may { MayCome B.entries B.base reads_count seat.old.me.0 }
    ensures same { (seat.new.table_id ≡ seat.old.table_id) × (seat.new.id ≡ seat.old.id) }
    ensures view { seat.new.me ≡ (having_read seat.old.me.0, seat.old.me.1) }
    ensures length { result ≡ length seat.old.me.0.hand.1 }
{
    board.load::<ReadCount>(seat, COUNT)
}

/// How long the history is, as far as that is seen without a seat.
pub(crate) fn peek_history<B: Book>(board: &Board<B>) -> u64
    requires { board.now.table_id.words ≡ 3 }
{
    board.peek(COUNT)
}

/// Adds the entries of a call, `count` of them, to the history.
pub(crate) fn add_entries<B: Book, G: Growth>(
    board: &Board<B>,
    seat: &mut PassSeat<B>,
    book: &B,
    count: u64,
)
    requires board { IsSeatOf board.now.table_id seat.old.table_id }
    requires may { MayCome B.entries B.base (adds_entries G.grown) seat.old.me.0 }
    requires grown { B.entries book.now ≡ seat.old.me.0.seen ++ G.grown }
    requires count { count ≡ length G.grown }
    requires small { length (B.entries book.now) < 2 ^ 64 }
    ensures same { (seat.new.table_id ≡ seat.old.table_id) × (seat.new.id ≡ seat.old.id) }
    ensures view { seat.new.me ≡ (having_added seat.old.me.0 G.grown, seat.old.me.1) }
{
    board.fetch_add::<AddEntries<G>>(seat, COUNT, count);
}

/// Puts the book back into the slot.
pub(crate) fn return_book<B: Book>(board: &Board<B>, seat: &mut PassSeat<B>, book: B)
    requires board { IsSeatOf board.now.table_id seat.old.table_id }
    requires may { MayCome B.entries B.base (returns_book book) seat.old.me.0 }
    requires empty { HasEmptySlot seat.old.me.1 }
    ensures same { (seat.new.table_id ≡ seat.old.table_id) × (seat.new.id ≡ seat.old.id) }
    ensures left { (seat.new.me.0 ≡ seat.old.me.0) × HasBook seat.new.me.1 book }
{
    drop(board.exchange(seat, 0, Some(book)));
}

/// Gives back the slot, with the book that has the whole history, and the turn.
pub(crate) fn give_turn<B: Book>(board: &Board<B>, seat: &mut PassSeat<B>)
    requires board { IsSeatOf board.now.table_id seat.old.table_id }
    requires may { (b : B) × HasBook seat.old.me.1 b × MayCome B.entries B.base (gives_turn b) seat.old.me.0 }
    ensures same { (seat.new.table_id ≡ seat.old.table_id) × (seat.new.id ≡ seat.old.id) }
    ensures view { seat.new.me ≡ (out_of_line seat.old.me.0, []) }
{
    board.fetch_add::<LeaveLine>(seat, SERVING, 1);
}

/// Makes a new pass. Pass 0 alone does.
pub(crate) fn split_pass<B: Book>(board: &Board<B>, seat: &mut PassSeat<B>) -> PassSeat<B>
    requires board { IsSeatOf board.now.table_id seat.old.table_id }
    requires may { MayCome B.entries B.base splits_pass seat.old.me.0 }
    ensures same { (seat.new.table_id ≡ seat.old.table_id) × (seat.new.id ≡ seat.old.id) }
    ensures view { seat.new.me ≡ (having_split seat.old.me.0, seat.old.me.1) }
    ensures new { (result.table_id ≡ seat.old.table_id) × (result.me ≡ (split_off seat.old.me.0, [])) }
{
    board.split_seat::<SplitPass>(seat)
}
