//! What leads from one result of a query to a later one (RFC 8620 section 5.6).
ghost use Rattle.std.specs.Prelude.{◌≡◌};

use spec_history::ids::Ids;
use std::marker::Model;

/// The number of an object, at its index in a result, from 0.
#[derive(Clone, Copy)]
pub struct Place {
    /// The number of the object.
    pub id: u64,
    /// Its index.
    pub index: u64,
}

/// Numbers of objects, each with its index. Contracts see the list of them.
#[derive(Drop)]
pub struct Places {
    items: Vec<Place>,
}

impl Model for Places {
    ghost use Rattle.std.specs.Prelude.{List};
    ghost use Rattle.spec_queries.specs.declared.delta.Place.{Place};

    ghost Value = { List Place };

    ghost view = { λ a. a.items.items };
}

impl Places {
    /// A list of these. Takes no memory.
    pub fn new(items: Vec<Place>) -> Places
        ensures { result ≡ items.items }
    {
        Places { items }
    }

    /// The numbers with their indexes, in order. Takes no memory.
    pub fn items(&self) -> &Vec<Place>
        ensures { result.now.items ≡ self.now }
    {
        &self.items
    }
}

/// What to take out of an old result, and what to put into it then.
#[derive(Drop)]
pub struct Delta {
    /// The numbers to take out.
    pub removed: Ids,
    /// The numbers to put in, each at its index, in order.
    pub added: Places,
}
