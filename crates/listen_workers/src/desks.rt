//! The desks of workers, over accounts that they share.
ghost use Rattle.std.specs.Prelude.{◌≡◌, ℕ, ◌≤◌, ◌<◌, ◌^◌, IfOk, Some, length, map, slice_get};
ghost use Rattle.std.specs.Arc.{arc_value};
ghost use Rattle.account_desk.specs.SharedDesk.{greatest_turn};
ghost use Rattle.listen_workers.specs.Passes.{ShareAccounts, fresh_passes};

use crate::hands::{deal, empty_hands};
use account_desk::lock::AccountLock;
use account_desk::shared_desk::SharedDesk;
use std::alloc::{AllocError, Global};
use std::sync::{Arc, Wait};

/// A desk for each of so many workers, over these accounts: each has a lock of its own, and worker w has pass w of each. Takes memory for the locks, the passes and the desks.
pub fn open_desks<L: AccountLock, W: Wait + Copy + Drop>(
    alloc: Global,
    runtime: W,
    accounts: Vec<L::Book>,
    workers: u32,
) -> Result<Vec<SharedDesk<W, L>>, AllocError>
    requires workers { (1 ≤ workers) × (workers ≤ 256) }
    requires few { length accounts.items < 2 ^ 32 }
    ensures workers { IfOk result (λ desks. length desks.items ≡ workers) }
    ensures fresh { IfOk result (λ desks. ShareAccounts (map L.account accounts.items) desks.items) }
{
    let (locks, hands) = open_locks(alloc, accounts, workers)?;
    desks_over(alloc, runtime, locks, hands)
}

// Puts each account into a lock of its own, and deals their passes to so many workers: worker w has pass w of each.
fn open_locks<L: AccountLock>(
    alloc: Global,
    accounts: Vec<L::Book>,
    workers: u32,
) -> Result<(Vec<L>, Vec<Vec<L::Pass>>), AllocError>
    requires { (1 ≤ workers) × (workers ≤ 256) }
    ensures locks { IfOk result (λ r. length r.0.items ≡ length accounts.items) }
    ensures workers { IfOk result (λ r. length r.1.items ≡ workers) }
    ensures hands { IfOk result (λ r. (w : ℕ) (hand : _) → slice_get r.1.items w ≡ Some hand
        → map L.state hand.items ≡ fresh_passes (map L.lock r.0.items) (map L.account accounts.items) w) }
{
    let mut locks = Vec::new(alloc);
    let mut hands = empty_hands(alloc, workers)?;
    for account in accounts {
        let (lock, passes) = L::open(alloc, account, workers)?;
        deal(&mut hands, passes)?;
        locks.push(lock)?;
    }
    Ok((locks, hands))
}

// The desks over these locks, each with the passes of one hand.
fn desks_over<L: AccountLock, W: Wait + Copy + Drop>(
    alloc: Global,
    runtime: W,
    locks: Vec<L>,
    hands: Vec<Vec<L::Pass>>,
) -> Result<Vec<SharedDesk<W, L>>, AllocError>
    requires few { length locks.items < 2 ^ 32 }
    requires of_locks { (w : ℕ) (hand : _) → slice_get hands.items w ≡ Some hand → map (λ p. p.lock) (map L.state hand.items) ≡ map L.lock locks.items }
    ensures { IfOk result (λ desks. desks.items ≡ map (λ hand. (map L.state hand.items, greatest_turn (map L.state hand.items))) hands.items) }
{
    let locks = Arc::new(alloc, locks)?;
    let mut desks = Vec::with_capacity(alloc, hands.len())?;
    for hand in hands {
        desks.push_reserved(SharedDesk::new(runtime, Arc::try_clone(&locks)?, hand));
    }
    Ok(desks)
}
