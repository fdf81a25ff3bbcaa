//! What is said of single occurrences of a series.
ghost use Rattle.std.specs.Prelude.{◌≡◌, ℕ, IfOk, []};
ghost use Rattle.spec_series.specs.Given.{IsFirstOf, IsLaterAt};
ghost use Rattle.spec_series.specs.SeriesLimits.{is_named};

use crate::occurrence::Occurrence;
use crate::sorted_exceptions::SortedExceptions;
use spec_time::length::Length;
use spec_time::wall::Wall;
use std::alloc::{AllocError, Global};
use std::marker::Model;

/// A stretch of wall time.
#[derive(Clone, Copy, Drop)]
pub struct Span {
    /// The wall second at which it begins.
    pub start: Wall,
    /// How long it lasts.
    pub length: Length,
    /// Whether it takes up the time: it isn't cancelled, and isn't marked as free.
    pub occupying: bool,
}

/// What a series has in place of the occurrence with a recurrence id (RFC 8984 section 4.3.5).
#[derive(Clone, Copy, Drop)]
pub struct Exception {
    /// The recurrence id.
    pub rid: Wall,
    /// What stands in its place, or `None` where there is no such occurrence.
    pub replaced: Option<Span>,
}

/// A list of exceptions. One of none, as most events have, takes little room.
#[derive(Drop)]
pub struct Exceptions {
    some: Option<Box<SortedExceptions>>,
}

impl Model for Exceptions {
    ghost use Rattle.std.specs.Prelude.{List, [], option_map, unwrap_or};
    ghost use Rattle.spec_series.specs.declared.exception.Exception.{Exception};

    ghost Value = { List Exception };

    ghost view = { λ a. unwrap_or (option_map (λ b. b.value) a.some) [] };
}

impl Exceptions {
    /// No exceptions. Takes no memory.
    pub fn none() -> Exceptions
        ensures { result ≡ [] }
    {
        Exceptions { some: None }
    }

    /// A list of these exceptions. Takes memory for what they name and give.
    pub fn new(alloc: Global, items: Vec<Exception>) -> Result<Exceptions, AllocError>
        ensures { IfOk result (λ xs. xs ≡ items.items) }
    {
        if items.is_empty() {
            return Ok(Exceptions::none());
        }
        let sorted = SortedExceptions::new(alloc, items)?;
        Ok(Exceptions {
            some: Some(Box::new(alloc, sorted)?),
        })
    }

    /// The exceptions, in order. Takes no memory.
    pub fn items(&self) -> &[Exception]
        ensures { result.now ≡ self.now }
    {
        match &self.some {
            Some(sorted) => sorted.items(),
            None => &[],
        }
    }

    /// Whether an exception names the wall second, in the time of a binary search. Takes no memory.
    pub fn names(&self, wall: i64) -> bool
        ensures { result ≡ is_named self.now wall }
    {
        match &self.some {
            Some(sorted) => sorted.names(wall),
            None => false,
        }
    }

    /// The first of what they give that starts after `from`, or at it with a recurrence id after `past`, if that is given. It takes
    /// the time of a binary search, and no memory.
    pub fn next_given(&self, from: i64, past: Option<i64>) -> Option<Occurrence>
        ensures { IsFirstOf (λ o. (k : ℕ) × IsLaterAt from past self.now k o) result }
    {
        match &self.some {
            Some(sorted) => sorted.next_given(from, past),
            None => None,
        }
    }

    /// Gives an equal list.
    pub fn copy(&self) -> Result<Exceptions, AllocError>
        ensures { IfOk result (λ xs. xs ≡ self.now) }
    {
        let some = match &self.some {
            Some(sorted) => Some(Box::new(*Box::allocator(sorted), sorted.copy()?)?),
            None => None,
        };
        Ok(Exceptions { some })
    }
}
