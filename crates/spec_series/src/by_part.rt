//! What the members of a recurrence rule are made of (RFC 8984 section 4.3.3).
ghost use Rattle.std.specs.Prelude.{◌≡◌, ◌==◌, ◌&&◌, Bool, ℤ, IfOk, IfSome, IsNone};
ghost use Rattle.std.specs.List.{list_any};
ghost use Rattle.std.specs.List.Sorted.{IsSorted};
ghost use Rattle.std.specs.Option.{option_cmp, option_eq};
ghost use Rattle.std.specs.Ordering.{int_cmp, int_eq, nat_cmp, ordering_then};
ghost use Rattle.spec_series.specs.Items.{IsLeastItem, NoneFrom};
ghost use Rattle.spec_series.specs.declared.by_part.NDay.{NDay};

use spec_time::wall::Wall;
use std::alloc::AllocError;
use std::marker::Model;

/// How often a rule repeats an event: its `frequency`, which says what a period is.
#[derive(Clone, Copy, Debug, PartialEq, Eq, Drop)]
pub enum Freq {
    /// A period is a day.
    Daily,
    /// A period is a week.
    Weekly,
    /// A period is a month.
    Monthly,
    /// A period is a year.
    Yearly,
}

/// What is done with a date that a month of the rule lacks: its `skip`.
#[derive(Clone, Copy, Debug, PartialEq, Eq, Drop)]
pub enum Skip {
    /// It is left out.
    Omit,
    /// It is moved to the month's last day.
    Backward,
    /// It is moved to the first day of the month after.
    Forward,
}

/// Where a rule ends: its `count` or its `until`.
#[derive(Clone, Copy, Drop)]
pub enum End {
    /// Nowhere.
    Never,
    /// After so many days of its set, the start's day among them.
    Count(u32),
    /// At this wall second, the last at which an occurrence may begin.
    Until(Wall),
}

/// A day of the week, and perhaps its place: an item of `byDay`.
#[derive(Clone, Copy, Debug, PartialEq, Eq, PartialOrd, Ord, Drop)]
pub struct NDay {
    /// The day of the week, from 0 for Monday to 6 for Sunday.
    pub day: u8,
    /// Its place among the days of that name in the month or the year, from 1, or from -1 for the last.
    pub nth: Option<i32>,
}

/// A list of days of the week.
#[derive(Drop)]
pub struct NDays {
    items: Vec<NDay>,
    // The same days, so that a binary search finds them.
    sorted: Vec<NDay>,
    ghost same: { (p : NDay → Bool) → list_any p items.items ≡ list_any p sorted.items },
    ghost rising: { IsSorted (λ a b. ordering_then (nat_cmp a.day b.day) (option_cmp int_cmp a.nth b.nth)) sorted.items },
}

impl Model for NDays {
    ghost use Rattle.std.specs.Prelude.{List};
    ghost use Rattle.spec_series.specs.declared.by_part.NDay.{NDay};

    ghost Value = { List NDay };

    ghost view = { λ a. a.items.items };
}

impl NDays {
    /// A list of these days. Takes memory for a copy of them.
    #[tactic(auto, using(crate::proofs::Searches::sorted_alike))]
    pub fn new(items: Vec<NDay>) -> Result<NDays, AllocError>
        ensures { IfOk result (λ xs. xs ≡ items.items) }
    {
        let mut sorted = items.clone()?;
        sorted.sort_unstable();
        Ok(NDays { items, sorted })
    }

    /// The days, in order. Takes no memory.
    pub fn items(&self) -> &[NDay]
        ensures { result.now ≡ self.now }
    {
        &self.items
    }

    /// Whether an item has the weekday, in the time of a binary search. Takes no memory.
    pub fn has_weekday(&self, weekday: u8) -> bool
        ensures { result ≡ list_any (λ d. weekday == d.day) self.now }
    {
        self.sorted
            .binary_search_by_key(&weekday, |d| d.day)
            .is_ok()
    }

    /// Whether the day is an item, in the time of a binary search. Takes no memory.
    pub fn contains(&self, day: NDay) -> bool
        ensures { result ≡ list_any (λ d. (day.day == d.day) && option_eq int_eq d.nth day.nth) self.now }
    {
        self.sorted.binary_search(&day).is_ok()
    }

    /// Gives an equal list.
    pub fn copy(&self) -> Result<NDays, AllocError>
        ensures { IfOk result (λ xs. xs ≡ self.now) }
    {
        Ok(NDays {
            items: self.items.clone()?,
            sorted: self.sorted.clone()?,
        })
    }
}

/// A list of small numbers, as of days of the month.
#[derive(Drop)]
pub struct Small {
    items: Vec<i32>,
    // The same numbers, so that a binary search finds them.
    sorted: Vec<i32>,
    ghost same: { (p : ℤ → Bool) → list_any p items.items ≡ list_any p sorted.items },
    ghost rising: { IsSorted int_cmp sorted.items },
}

impl Model for Small {
    ghost use Rattle.std.specs.Prelude.{List, ℤ};

    ghost Value = { List ℤ };

    ghost view = { λ a. a.items.items };
}

impl Small {
    /// A list of these numbers. Takes memory for a copy of them.
    #[tactic(auto, using(crate::proofs::Searches::sorted_alike))]
    pub fn new(items: Vec<i32>) -> Result<Small, AllocError>
        ensures { IfOk result (λ xs. xs ≡ items.items) }
    {
        let mut sorted = items.clone()?;
        sorted.sort_unstable();
        Ok(Small { items, sorted })
    }

    /// The numbers, in order. Takes no memory.
    pub fn items(&self) -> &[i32]
        ensures { result.now ≡ self.now }
    {
        &self.items
    }

    /// Whether the number is an item, in the time of a binary search. Takes no memory.
    pub fn contains(&self, number: i32) -> bool
        ensures { result ≡ list_any (λ k. int_eq k number) self.now }
    {
        self.sorted.binary_search(&number).is_ok()
    }

    /// The least item that is at least the number, in the time of a binary search. Takes no memory.
    pub fn at_least(&self, number: i32) -> Option<i32>
        ensures none { IsNone result → NoneFrom self.now number }
        ensures some { IfSome result (IsLeastItem self.now number) }
    {
        match self.sorted.binary_search(&number) {
            Ok(_) => Some(number),
            Err(place) => self.sorted.get(place).copied(),
        }
    }

    /// Gives an equal list.
    pub fn copy(&self) -> Result<Small, AllocError>
        ensures { IfOk result (λ xs. xs ≡ self.now) }
    {
        Ok(Small {
            items: self.items.clone()?,
            sorted: self.sorted.clone()?,
        })
    }
}
