//! The objects of a kind.
ghost use Rattle.std.specs.Prelude.{◌≡◌, ◌<◌, ◌≤◌, ◌+◌, ◌++◌, ◌∷◌, ◌^◌, ◌&&◌, [], ℕ, IfOk, None, OnOk, drop, length, nat_le, option_copied, slice_index_or, suc, true};
ghost use Rattle.std.specs.List.{range_with_len};
ghost use Rattle.object_log.specs.Pasts.{pasts};
ghost use Rattle.object_log.specs.Puts.{ids_put, is_known, may_come, latest, ids_with_object, latest_at};
ghost use Rattle.object_log.specs.Slots.{object_in, rises};
ghost use Rattle.object_log.specs.declared.put.Put.{Put as AnyPut};

use crate::put::Put;
use crate::slots::{IdSlot, Slots};
use crate::window::{Past, Window};
use ghost_list::GhostList;
use std::alloc::{AllocError, Global};

/// The objects of one kind, each by its id, with the newest of their changes.
///
/// Contracts see all changes that ever were, and how many more are taken without memory. Memory is taken for the objects that there are, and for what the changes
/// behind the oldest state that is answered from took the place of. Ids are the numbers from 1, and are given in order.
#[derive(Drop)]
pub struct ObjectLog<T> {
    pub(crate) slots: Slots<T>,
    pub(crate) window: Window<T>,
    /// The oldest state that is answered from.
    pub(crate) first: u64,
    told: GhostList<Put<T>>,
    ghost kept: { window.pasts.items ≡ drop first (pasts told.items) },
    ghost counted: { first + length window.pasts.items ≡ length told.items },
    ghost standing: { (id : ℕ) → object_in slots.items.items id ≡ latest told.items id },
    ghost numbered: { ids_put told.items ≡ range_with_len 1 slots.created },
    ghost few: { length told.items ≤ 2 ^ 40 },
}

impl<T: Drop> ObjectLog<T> {
    ghost use Rattle.object_log.specs.ObjectLog.{first, puts, room};

    /// A log of no changes. Takes no memory.
    pub fn new(alloc: Global) -> ObjectLog<T>
        ensures puts { puts result ≡ [] }
        ensures first { first result ≡ 0 }
    {
        ObjectLog {
            slots: Slots::new(alloc),
            window: Window::new(alloc),
            first: 0,
            told: GhostList::new(),
        }
    }

    /// A log that goes on from a state, which these were all changes up to. They gave so many ids, and left the objects in these slots; nothing is answered from a state
    /// before it. Takes no memory.
    pub fn open(
        alloc: Global,
        told: GhostList<Put<T>>,
        state: u64,
        created: u64,
        slots: Vec<IdSlot<T>>,
    ) -> ObjectLog<T>
        requires state { length told.items ≡ state }
        requires few { state ≤ 2 ^ 40 }
        requires numbered { ids_put told.items ≡ range_with_len 1 created }
        requires rising { rises 0 (suc created) slots.items ≡ true }
        requires standing { (id : ℕ) → object_in slots.items id ≡ latest told.items id }
        ensures puts { puts result ≡ told.items }
        ensures first { first result ≡ state }
    {
        ObjectLog {
            slots: Slots::of(created, slots),
            window: Window::new(alloc),
            first: state,
            told,
        }
    }

    /// Takes memory for `more` further changes, of whatever ids.
    pub fn reserve(&mut self, more: u64) -> Result<(), AllocError>
        ensures room { OnOk result (more ≤ room self.new) }
        ensures puts { puts self.new ≡ puts self.old }
        ensures first { first self.new ≡ first self.old }
    {
        self.slots.reserve(more as usize)?;
        self.window.reserve(more as usize)
    }

    /// Makes a change, and lets go of the oldest that lie beyond the bounds then. Takes no memory, since it was reserved.
    pub fn put(&mut self, put: Put<T>)
        requires room { 0 < room self.old }
        requires next { may_come (puts self.old) put ≡ true }
        requires few { length (puts self.old) < 2 ^ 40 }
        requires size { put.size ≤ 2 ^ 40 }
        ensures puts { puts self.new ≡ puts self.old ++ put ∷ [] }
        ensures known { (k : ℕ) → first self.old ≤ k → (nat_le (first self.new) k && nat_le k (length (puts self.new))) ≡ is_known (puts self.new) k }
        ensures rises { first self.old ≤ first self.new }
        ensures room { room self.old ≤ room self.new + 1 }
    {
        self.told = self.told.and(&put);
        let puts = put.object.is_some();
        let before = self.slots.put(put.id, put.object);
        let gone = self.window.push_reserved(Past {
            id: put.id,
            puts,
            size: put.size,
            before,
        });
        self.first += gone as u64;
    }

    /// The object of an id, where it has one. Takes no memory.
    pub fn get(&self, id: u64) -> Option<&T>
        ensures { option_copied result ≡ latest (puts self.now) id }
    {
        self.slots.get(id)
    }

    /// Whether a change of an id may come next: it is the next one, or has an object. Takes no memory.
    pub fn may_come(&self, id: u64) -> bool
        ensures { (p : AnyPut T) → p.id ≡ id → result ≡ may_come (puts self.now) p }
    {
        if id == self.slots.created + 1 {
            return true;
        }
        self.get(id).is_some()
    }

    /// The object that an id had at state `k`, where it had one. Takes no memory.
    ///
    /// Time grows with the number of changes behind the state.
    pub fn get_at(&self, id: u64, k: u64) -> Option<&T>
        requires known { first self.now ≤ k }
        requires reached { k ≤ length (puts self.now) }
        ensures { option_copied result ≡ latest_at (puts self.now) k id }
    {
        for place in (k - self.first) as usize..self.window.pasts.len() {
            let past = &self.window.pasts[place];
            if past.id == id {
                return past.before.as_ref();
            }
        }
        self.get(id)
    }

    /// The state: how many changes there ever were (RFC 8620 section 5.1). Takes no memory.
    pub fn count(&self) -> u64
        ensures { result ≡ length (puts self.now) }
    {
        self.first + self.window.pasts.len() as u64
    }

    /// How many ids were ever given. Takes no memory.
    pub fn created(&self) -> u64
        ensures { result ≡ length (ids_put (puts self.now)) }
    {
        self.slots.created
    }

    /// The ids that have an object, in order of creation. Takes memory for them.
    pub fn live_ids(&self, alloc: Global) -> Result<Vec<u64>, AllocError>
        ensures { IfOk result (λ ids. ids.items ≡ ids_with_object (puts self.now)) }
    {
        let mut ids = Vec::new(alloc);
        for slot in &self.slots.items {
            if slot.object.is_some() {
                ids.push(slot.id)?;
            }
        }
        Ok(ids)
    }

    /// Gives up the memory of the ids that were removed, once there are many of them. Takes no memory.
    ///
    /// Called at times, it takes time that the ids which were given since make up for.
    pub fn compact(&mut self)
        ensures puts { puts self.new ≡ puts self.old }
        ensures first { first self.new ≡ first self.old }
        ensures room { room self.old ≤ room self.new }
    {
        self.slots.compact();
    }

    /// The change that led from a state to the next one, as it can be undone.
    pub(crate) fn past(&self, state: usize) -> &Past<T>
        requires known { first self.now ≤ state }
        requires reached { state < length (puts self.now) }
        ensures { result.now ≡ slice_index_or (pasts (puts self.now)) state result.now }
    {
        &self.window.pasts[state - self.first as usize]
    }
}
