//! What each id has.
ghost use Rattle.std.specs.Prelude.{◌≡◌, ◌<◌, ◌≤◌, ◌+◌, ◌-◌, ◌==◌, ◌||◌, ◌^◌, [], ℕ, None, IfNone, IfSome, OnOk, if◌then◌else◌, is_some, length, option_copied, slice_index_or, suc, true, vec_capacity, vec_len};
ghost use Rattle.object_log.specs.Slots.{object_in, rises};
ghost use Rattle.object_log.specs.declared.slots.IdSlot.{IdSlot};

use std::alloc::{AllocError, Global};
use std::mem;

// How many slots more there may always be.
const SPARE_SLOTS: usize = 1024;

/// What an id has.
#[derive(Drop)]
pub struct IdSlot<T> {
    /// The id.
    pub id: u64,
    /// Its object, or `None` where it was removed.
    pub object: Option<T>,
}

/// The slots of ids that have an object, and of some that were removed. The ids rise, up to those that were ever given.
#[derive(Drop)]
pub(crate) struct Slots<T> {
    pub items: Vec<IdSlot<T>>,
    /// How many ids were ever given: the numbers from 1.
    pub created: u64,
    /// How many slots there were when those of removed ids were given up last. It tells when to do so again, and nothing else.
    compacted: usize,
    ghost rising: { rises 0 (suc created) items.items ≡ true },
}

impl<T: Drop> Slots<T> {
    ghost use Rattle.object_log.specs.Room.{slot_room};

    /// No slots. Takes no memory.
    pub(crate) fn new(alloc: Global) -> Slots<T>
        ensures items { result.items.items ≡ [] }
        ensures created { result.created ≡ 0 }
    {
        Slots {
            items: Vec::new(alloc),
            created: 0,
            compacted: 0,
        }
    }

    /// Slots of ids that were given up to `created`. Takes no memory.
    pub(crate) fn of(created: u64, items: Vec<IdSlot<T>>) -> Slots<T>
        requires { rises 0 (suc created) items.items ≡ true }
        ensures items { result.items.items ≡ items.items }
        ensures created { result.created ≡ created }
    {
        let compacted = items.len();
        Slots {
            items,
            created,
            compacted,
        }
    }

    /// Takes memory for `more` further slots.
    pub(crate) fn reserve(&mut self, more: usize) -> Result<(), AllocError>
        ensures room { OnOk result (more ≤ slot_room self.new) }
        ensures items { self.new.items.items ≡ self.old.items.items }
        ensures created { self.new.created ≡ self.old.created }
    {
        self.items.reserve(more)
    }

    /// The object of an id, where it has one. Takes no memory.
    pub(crate) fn get(&self, id: u64) -> Option<&T>
        ensures { option_copied result ≡ object_in self.now.items.items id }
    {
        match self.place(id) {
            Some(place) => self.items[place].object.as_ref(),
            None => None,
        }
    }

    // The place of the slot of an id.
    fn place(&self, id: u64) -> Option<usize>
        ensures within { IfSome result (λ place. place < length self.now.items.items) }
        ensures found { IfSome result (λ place. (s : IdSlot T) → (slice_index_or self.now.items.items place s).id ≡ id) }
        ensures absent { IfNone result (object_in self.now.items.items id ≡ None) }
    {
        match self.items.binary_search_by_key(&id, |slot| slot.id) {
            Ok(place) => Some(place),
            Err(_) => None,
        }
    }

    /// Gives an id an object, or none, and what it had. It is the next id, or one that has an object. Takes no memory, since it was reserved.
    pub(crate) fn put(&mut self, id: u64, object: Option<T>) -> Option<T>
        requires room { 0 < slot_room self.old }
        requires next { ((id == suc self.old.created) || is_some (object_in self.old.items.items id)) ≡ true }
        requires few { self.old.created < 2 ^ 40 }
        ensures before { result ≡ object_in self.old.items.items id }
        ensures after { (q : ℕ) → object_in self.new.items.items q ≡ (if id == q then object else object_in self.old.items.items q) }
        ensures created { self.new.created ≡ (if id == suc self.old.created then suc self.old.created else self.old.created) }
        ensures room { slot_room self.old ≤ slot_room self.new + 1 }
    {
        if id == self.created + 1 {
            self.push_reserved(object);
            None
        } else {
            self.replace(id, object)
        }
    }

    // Gives an id that has an object another one, or none, and what it had.
    fn replace(&mut self, id: u64, object: Option<T>) -> Option<T>
        requires { is_some (object_in self.old.items.items id) ≡ true }
        ensures before { result ≡ object_in self.old.items.items id }
        ensures after { (q : ℕ) → object_in self.new.items.items q ≡ (if id == q then object else object_in self.old.items.items q) }
        ensures created { self.new.created ≡ self.old.created }
        ensures room { slot_room self.new ≡ slot_room self.old }
    {
        match self.place(id) {
            Some(place) => mem::replace(&mut self.items[place].object, object),
            None => None,
        }
    }

    // Gives the next id, which has this object.
    fn push_reserved(&mut self, object: Option<T>)
        requires room { 0 < slot_room self.old }
        requires few { self.old.created < 2 ^ 40 }
        ensures after { (q : ℕ) → object_in self.new.items.items q ≡ (if suc self.old.created == q then object else object_in self.old.items.items q) }
        ensures created { self.new.created ≡ suc self.old.created }
        ensures room { slot_room self.old ≡ slot_room self.new + 1 }
    {
        self.created += 1;
        self.items.push_reserved(IdSlot {
            id: self.created,
            object,
        });
    }

    /// Gives up the slots of the ids that were removed, once there are more than twice as many slots as when that was done last. Takes no memory.
    ///
    /// So the slots are gone over once in as many ids that are given.
    pub(crate) fn compact(&mut self)
        ensures same { (q : ℕ) → object_in self.new.items.items q ≡ object_in self.old.items.items q }
        ensures created { self.new.created ≡ self.old.created }
        ensures room { slot_room self.old ≤ slot_room self.new }
    {
        if self.items.len() > self.compacted.saturating_mul(2).saturating_add(SPARE_SLOTS) {
            self.retain_live();
        }
    }

    // Gives up the slots of the ids that were removed.
    fn retain_live(&mut self)
        ensures same { (q : ℕ) → object_in self.new.items.items q ≡ object_in self.old.items.items q }
        ensures created { self.new.created ≡ self.old.created }
        ensures room { slot_room self.old ≤ slot_room self.new }
    {
        self.items.retain(|slot| slot.object.is_some());
        self.compacted = self.items.len();
    }
}
