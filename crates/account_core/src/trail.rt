//! The entries that came to an account since a time, copied.
ghost use Rattle.std.specs.Prelude.{◌≡◌, ◌≤◌, ◌-◌, ◌^◌, ◌++◌, [], IfOk, None, OnErr, OnOk, Some, drop, length};
ghost use Rattle.cal_model.specs.Answer.{entries_from};

use crate::keeping::EntryKeeper;
use journal_keeper::keeper::KeepError;
use set_methods::copy::copy_of;
use spec_history::entry::{Change, Entry};
use spec_history::stamp::Stamp;
use std::alloc::{AllocError, Global};

/// Copies of the entries that come to an account from a place on, where there is one. Each of them is sound behind those before it.
#[derive(Drop)]
pub(crate) struct Trail {
    alloc: Global,
    /// How many entries the account had when the copies began, where they did.
    pub(crate) first: Option<u64>,
    pub(crate) entries: Vec<Entry>,
}

impl Trail {
    /// A trail that copies nothing. Takes no memory.
    pub(crate) fn none(alloc: Global) -> Trail
        ensures { result.first ≡ None }
    {
        Trail {
            alloc,
            first: None,
            entries: Vec::new(alloc),
        }
    }

    /// A trail of what comes behind so many entries. Takes no memory.
    pub(crate) fn behind(alloc: Global, count: u64) -> Trail
        ensures first { result.first ≡ Some count }
        ensures entries { result.entries.items ≡ [] }
    {
        Trail {
            alloc,
            first: Some(count),
            entries: Vec::new(alloc),
        }
    }

    /// The copies from a place on, where they began at `first`. Takes no memory.
    pub(crate) fn since(&self, first: u64, place: u64) -> &[Entry]
        requires begun { first ≤ place }
        requires reached { place - first ≤ length self.now.entries.items }
        ensures { result.now ≡ drop (place - first) self.now.entries.items }
    {
        &self.entries[(place - first) as usize..]
    }

    // Copies the entries that the changes of a call become. After running out of memory the trail is as before.
    fn add(&mut self, stamp: &Stamp, changes: &[Change]) -> Result<(), AllocError>
        requires { length changes.now ≤ 2 ^ 32 }
        ensures first { self.new.first ≡ self.old.first }
        ensures ok { OnOk result (self.new.entries.items ≡ self.old.entries.items ++ entries_from stamp.now 0 changes.now) }
        ensures err { OnErr result (self.new.entries.items ≡ self.old.entries.items) }
    {
        let mut more = copies(self.alloc, stamp, changes)?;
        self.entries.append(&mut more)
    }
}

impl EntryKeeper for Trail {
    ghost use Rattle.account_core.specs.Trails.{HasCopies};

    ghost unkept = { None };

    ghost has = { λ trail base h. HasCopies base.zones trail h };

    fn keep(&mut self, stamp: &Stamp, changes: &[Change]) -> Result<(), KeepError> {
        match self.first {
            Some(_) => Ok(self.add(stamp, changes)?),
            None => Ok(()),
        }
    }
}

// The entries that the changes of a call become.
fn copies(alloc: Global, stamp: &Stamp, changes: &[Change]) -> Result<Vec<Entry>, AllocError>
    requires { length changes.now ≤ 2 ^ 32 }
    ensures { IfOk result (λ v. v.items ≡ entries_from stamp.now 0 changes.now) }
{
    let mut entries = Vec::with_capacity(alloc, changes.len())?;
    let mut part: u64 = 0;
    for change in changes {
        let change = copy_of(change)?;
        entries.push(Entry {
            author: stamp.author,
            turn: stamp.turn,
            part: part as u32,
            moment: stamp.moment,
            change,
        })?;
        part += 1;
    }
    Ok(entries)
}
