//! Lists of numbers of objects.
ghost use Rattle.std.specs.Prelude.{◌≡◌};

use std::marker::Model;

/// A list of numbers of objects of one kind.
#[derive(Drop)]
pub struct Ids {
    items: Vec<u64>,
}

impl Model for Ids {
    ghost use Rattle.std.specs.Prelude.{List, ℕ};

    ghost Value = { List ℕ };

    ghost view = { λ a. a.items.items };
}

impl Ids {
    /// A list of these numbers. Takes no memory.
    pub fn new(items: Vec<u64>) -> Ids
        ensures { result ≡ items.items }
    {
        Ids { items }
    }

    /// The numbers, in order. Takes no memory.
    pub fn items(&self) -> &Vec<u64>
        ensures { result.now.items ≡ self.now }
    {
        &self.items
    }
}
