//! A book of amounts, for tests of the lock.
ghost use Rattle.std.specs.Prelude.{◌≡◌, [], None};

use spec_books::book::Book;
use spec_history::entry::{Change, Entry, Kind};
use spec_time::moment::Moment;
use std::alloc::{AllocError, Global};
use std::marker::Model;

/// The most entries of a book. One that has them adds none.
const MAX_ENTRIES: usize = 1 << 40;

/// The most that one call adds. More counts as this.
const MAX_AMOUNT: u64 = 1000;

/// A call of a counter book: adds an amount. An amount of 0 adds no entry.
#[derive(Clone, Copy, Debug, PartialEq, Eq, Drop)]
pub struct Add(pub u64);

/// A book whose entries are amounts, and whose replies are the sum of all of them. Contracts see its entries.
#[derive(Drop)]
pub struct CounterBook {
    entries: Vec<Entry>,
    sum: u64,
}

impl Model for CounterBook {
    ghost use Rattle.std.specs.Prelude.{◌≡◌, ◌*◌, ◌≤◌, List, length};
    ghost use Rattle.std.specs.Coded.{codes};
    ghost use Rattle.spec_json.specs.DataCode.{data_code};
    ghost use Rattle.spec_history.specs.declared.entry.Entry.{Entry};
    ghost use Rattle.account_lock.specs.Counter.{sum_of_ids, most_entries};

    ghost Value = { List Entry };

    ghost coded = { Prim.hlevel (codes, data_code) };

    ghost view = { λ b. b.entries.items };

    ghost invariant = { λ b. (b.sum ≡ sum_of_ids b.entries.items) × (b.sum ≤ 1000 * length b.entries.items)
        × (length b.entries.items ≤ most_entries) };
}

impl CounterBook {
    /// A book with no entries. Takes no memory.
    pub fn new(alloc: Global) -> CounterBook
        ensures { result ≡ [] }
    {
        CounterBook {
            entries: Vec::new(alloc),
            sum: 0,
        }
    }

    /// Its entries.
    pub fn entries(&self) -> &[Entry]
        ensures { result.now ≡ self.now }
    {
        self.entries.as_slice()
    }
}

impl Book for CounterBook {
    ghost use Rattle.std.specs.Prelude.{◌+◌};
    ghost use Rattle.account_lock.specs.Counter.{sum_of_ids, amount_added, amount_added_signed, amount_counted};
    ghost use Rattle.spec_history.specs.Base.{no_base};

    type Call = Add;

    type Reply = u64;

    ghost base = { λ b. no_base };

    ghost entries = { λ b. b };

    ghost answer = { λ z h call moment. sum_of_ids h + amount_counted h call.0 };

    ghost added = { λ z h call stamp. amount_added h call.0 stamp };

    ghost unkept = { None };

    #[tactic(auto, using(crate::proofs::CounterLemmas::sum_of_ids_append))]
    fn act(
        &mut self,
        author: u32,
        turn: u64,
        call: &Add,
        moment: Moment,
    ) -> Result<u64, AllocError> {
        let amount = call.0.min(MAX_AMOUNT);
        if amount == 0 || self.entries.len() == MAX_ENTRIES {
            return Ok(self.sum);
        }
        self.entries.push(Entry {
            author,
            turn,
            part: 0,
            moment,
            change: Change {
                kind: Kind::Calendar,
                id: amount,
                object: None,
            },
        })?;
        self.sum += amount;
        Ok(self.sum)
    }

    fn count(&self) -> u64 {
        self.entries.len() as u64
    }

    ghost signed = { λ z h call stamp. amount_added_signed h call.0 stamp };
}
