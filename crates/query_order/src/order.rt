//! Orders of a query's result.
ghost use Rattle.std.specs.Prelude.{◌≡◌, ◌≤◌, ◌↔◌, [], IsTrue, length};
ghost use Rattle.spec_queries.specs.Comparing.{by_property, by_comparator, by_all};

use spec_queries::comparator::{Comparator, MAX_COMPARATORS, Property};
use spec_queries::item::Item;
use std::cmp::Ordering;
use std::marker::Model;

/// An order by at most 8 comparators, of which the first that tells two items apart decides. Contracts see the list of them.
#[derive(Drop)]
pub struct Order {
    comparators: Vec<Comparator>,
}

impl Model for Order {
    ghost use Rattle.std.specs.Prelude.{List, ◌≤◌, length};
    ghost use Rattle.spec_queries.specs.declared.comparator.Comparator.{Comparator};
    ghost use Rattle.spec_queries.specs.declared.comparator.TheConstants.{MAX_COMPARATORS};

    ghost Value = { List Comparator };

    ghost view = { λ a. a.comparators.items };

    ghost invariant = { λ a. length a.comparators.items ≤ MAX_COMPARATORS };
}

impl Order {
    /// An order by these comparators. Takes no memory.
    pub fn new(comparators: Vec<Comparator>) -> Order
        requires { length comparators.items ≤ MAX_COMPARATORS }
        ensures { result ≡ comparators.items }
    {
        Order { comparators }
    }

    /// Whether there are no comparators. Takes no memory.
    pub fn is_empty(&self) -> bool
        ensures { IsTrue result ↔ (self.now ≡ []) }
    {
        self.comparators.is_empty()
    }

    /// The comparators, in their order. Takes no memory.
    pub fn comparators(&self) -> &[Comparator]
        ensures { result.now ≡ self.now }
    {
        &self.comparators
    }

    /// How two items stand to each other: `Equal` where no comparator tells them apart. Takes no memory.
    pub fn compare(&self, a: &Item, b: &Item) -> Ordering
        ensures { result ≡ by_all self.now a.now b.now }
    {
        for comparator in &self.comparators {
            match by_comparator(*comparator, a, b) {
                Ordering::Equal => (),
                apart => return apart,
            }
        }
        Ordering::Equal
    }
}

fn by_comparator(comparator: Comparator, a: &Item, b: &Item) -> Ordering
    ensures { result ≡ by_comparator comparator a.now b.now }
{
    if comparator.ascending {
        by_property(comparator.property, a, b)
    } else {
        by_property(comparator.property, b, a)
    }
}

fn by_property(property: Property, a: &Item, b: &Item) -> Ordering
    ensures { result ≡ by_property property a.now b.now }
{
    match property {
        Property::Start => a.start.cmp(&b.start),
        Property::Uid => a.uid.as_str().cmp(b.uid.as_str()),
        Property::Title => a.title.as_str().cmp(b.title.as_str()),
        Property::Created => a.created.cmp(&b.created),
        Property::Updated => a.updated.cmp(&b.updated),
    }
}
