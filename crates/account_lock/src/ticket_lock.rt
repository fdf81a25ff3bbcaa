//! What holds of a lock between any two steps of any threads.
ghost use Rattle.account_lock.specs.Lock.{IsTicketLock};
ghost use Rattle.account_lock.specs.LockSteps.{IsReached};
ghost use Rattle.account_lock.specs.Rule.{lock_of};

use crate::rule::LockRule;
use crate::view::View;
use atomic_table::TableRule;
use spec_books::book::Book;
use std::snapshot::Snapshot;

/// Each state that the lock's table can be in between two steps, which are those that keep its rule, is a ticket lock,
/// opened with the entries and the base of the book that the snapshot has.
pub fn holds_between_steps<B: Book>()
    ensures law { (opened : _) (s : _) → ⟦<LockRule<B> as TableRule<Option<B>, View, Snapshot<B>>>⟧.holds opened s
        → IsTicketLock B.entries B.base (B.entries opened.value) (B.base opened.value) (lock_of s) }
{}

/// Steps of the eight kinds alone, each where it may come, lead to each such state from the lock as it was opened.
pub fn is_reached_by_steps<B: Book>()
    ensures law { (opened : _) (s : _) → ⟦<LockRule<B> as TableRule<Option<B>, View, Snapshot<B>>>⟧.holds opened s
        → IsReached B.entries B.base (B.entries opened.value) (B.base opened.value) (lock_of s) }
{}
