//! What a look for a slot finds.
ghost use Rattle.std.specs.Prelude.{◌≡◌};

use spec_bookings::clash::Clash;
use spec_time::wall::Wall;
use std::marker::Model;

/// A start that was tried, and what stands against it.
#[derive(Clone, Copy, Drop)]
pub struct Tried {
    /// The wall second of the start.
    pub start: Wall,
    /// The first second that would be covered twice, and the booking that covers it.
    pub clash: Clash,
}

/// A list of starts that were tried.
#[derive(Drop)]
pub struct TriedList {
    items: Vec<Tried>,
}

impl Model for TriedList {
    ghost use Rattle.std.specs.Prelude.{List};
    ghost use Rattle.spec_slots.specs.declared.slot.Tried.{Tried};

    ghost Value = { List Tried };

    ghost view = { λ a. a.items.items };
}

impl TriedList {
    /// A list of these starts. Takes no memory.
    pub fn new(items: Vec<Tried>) -> TriedList
        ensures { result ≡ items.items }
    {
        TriedList { items }
    }

    /// The starts, in order. Takes no memory.
    pub fn items(&self) -> &[Tried]
        ensures { result.now ≡ self.now }
    {
        &self.items
    }
}

/// What was found: the first start at which nothing stands against a wish, if there is one, and each earlier one with what does.
#[derive(Drop)]
pub struct FoundSlot {
    /// The first start at which nothing stands against it.
    pub start: Option<Wall>,
    /// The starts before it, or all where there is none, in order.
    pub tried: TriedList,
}
