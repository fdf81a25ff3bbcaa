//! A counter book that also tells of its entries, so that tests see what a pass has seen.
ghost use Rattle.std.specs.Prelude.{◌≡◌, ◌==◌, [], count_by, slice_get};
ghost use Rattle.rows.specs.Reports.{signature_of};

use account_lock::counter::{self, CounterBook};
use spec_books::book::Book;
use spec_history::entry::Entry;
use spec_time::moment::Moment;
use std::alloc::{AllocError, Global};
use std::marker::Model;

/// What is asked: to add an amount, or to tell of the entries, and of those of one author.
#[derive(Drop)]
pub enum Question {
    Add(u64),
    Tell(u32),
}

/// Who made an entry, by which of its calls.
#[derive(Clone, Copy, Debug, PartialEq, Eq, Drop)]
pub struct Signature {
    pub author: u32,
    pub turn: u64,
}

/// How many entries there are and how many of them are the author's, and who made the first and the last one.
#[derive(Clone, Copy, Debug, PartialEq, Eq, Drop)]
pub struct Report {
    pub entries: u64,
    pub of_author: u64,
    pub first: Option<Signature>,
    pub last: Option<Signature>,
}

/// The sum of all amounts, or a report.
#[derive(Clone, Copy, Debug, PartialEq, Eq, Drop)]
pub enum Answer {
    Sum(u64),
    Told(Report),
}

/// A counter book that tells of its entries.
#[derive(Drop)]
pub struct ReportingBook {
    counter: CounterBook,
}

impl Model for ReportingBook {
    ghost use Rattle.std.specs.Prelude.{List};
    ghost use Rattle.std.specs.Coded.{codes};
    ghost use Rattle.spec_json.specs.DataCode.{data_code};
    ghost use Rattle.spec_history.specs.declared.entry.Entry.{Entry};

    ghost Value = { List Entry };

    ghost coded = { Prim.hlevel (codes, data_code) };

    ghost view = { λ b. b.counter };
}

impl ReportingBook {
    /// A book with no entries.
    pub fn new(alloc: Global) -> ReportingBook
        ensures { result ≡ [] }
    {
        ReportingBook {
            counter: CounterBook::new(alloc),
        }
    }
}

impl Book for ReportingBook {
    ghost use Rattle.std.specs.Prelude.{None};
    ghost use Rattle.spec_history.specs.Base.{no_base};
    ghost use Rattle.rows.specs.Reports.{answer_of, reported_by, added_signed};

    type Call = Question;

    type Reply = Answer;

    ghost base = { λ b. no_base };

    ghost entries = { λ b. b };

    ghost answer = { λ z h question moment. answer_of h question };

    ghost added = { λ z h question stamp. reported_by h question stamp };

    ghost unkept = { None };

    fn act(
        &mut self,
        author: u32,
        turn: u64,
        call: &Question,
        moment: Moment,
    ) -> Result<Answer, AllocError> {
        match call {
            Question::Add(amount) => {
                let sum = self
                    .counter
                    .act(author, turn, &counter::Add(*amount), moment)?;
                Ok(Answer::Sum(sum))
            }
            Question::Tell(of) => {
                let entries = self.counter.entries();
                Ok(Answer::Told(Report {
                    entries: entries.len() as u64,
                    of_author: entries_of(entries, *of),
                    first: signature_at(entries, 0),
                    last: signature_at(entries, entries.len().saturating_sub(1)),
                }))
            }
        }
    }

    fn count(&self) -> u64 {
        self.counter.count()
    }

    ghost signed = { λ z h question stamp. added_signed h question stamp };
}

fn entries_of(entries: &[Entry], author: u32) -> u64
    ensures { result ≡ count_by (λ e. e.author == author) entries.now }
{
    entries.iter().filter(|e| e.author == author).count() as u64
}

fn signature_at(entries: &[Entry], at: usize) -> Option<Signature>
    ensures { result ≡ signature_of (slice_get entries.now at) }
{
    let entry = entries.get(at)?;
    Some(Signature {
        author: entry.author,
        turn: entry.turn,
    })
}
