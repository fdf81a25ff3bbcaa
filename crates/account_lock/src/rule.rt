//! The rule of the lock's table, and what its steps tell.
ghost use Rattle.std.specs.Prelude.{List, []};
ghost use Rattle.account_lock.specs.LockSteps.{new_pass, having_split, split_off};
ghost use Rattle.spec_history.specs.declared.entry.Entry.{Entry};
ghost use Rattle.account_lock.specs.Rule.{RuleHolds};
ghost use Rattle.account_lock.specs.StepNews.{took_ticket, looked, read_count, added_entries, left_line};

use crate::view::View;
use atomic_table::{Play, Split, TableRule};
use spec_books::book::Book;
use std::marker::{Brand, PhantomData};
use std::snapshot::Snapshot;

/// What the table keeps between any two steps of any threads. The snapshot has the book that the lock was opened with.
pub struct LockRule<B> {
    of: PhantomData<B>,
}

impl<B: Book> TableRule<Option<B>, View, Snapshot<B>> for LockRule<B> {
    ghost holds = { λ opened. RuleHolds B.entries B.base (B.entries opened.value) (B.base opened.value) };

    ghost first = { λ opened. new_pass 0 (B.entries opened.value) (B.base opened.value) };
}

/// Takes a ticket.
pub struct TakeTicket;

impl<S> Play<S, View> for TakeTicket {
    ghost then = { took_ticket };
}

/// Looks which ticket is served, and takes the slot where it is the pass's.
pub struct Look;

impl<B: Book> Play<Option<B>, View> for Look {
    ghost then = { looked B.entries B.base };
}

/// Reads how long the history is.
pub struct ReadCount;

impl<S> Play<S, View> for ReadCount {
    ghost then = { read_count };
}

/// The entries that a call adds. They are picked where the step is made.
pub trait Growth {
    ghost grown: { List Entry };
}

impl Growth for Brand {
    ghost grown = { [] };
}

/// Adds the entries of a call.
pub struct AddEntries<G> {
    of: PhantomData<G>,
}

impl<S, G: Growth> Play<S, View> for AddEntries<G> {
    ghost then = { added_entries G.grown };
}

/// Gives the slot and the turn.
pub struct LeaveLine;

impl<S> Play<S, View> for LeaveLine {
    ghost then = { left_line };
}

/// Makes a new pass.
pub struct SplitPass;

impl Split<View> for SplitPass {
    ghost left = { having_split };

    ghost right = { split_off };
}
