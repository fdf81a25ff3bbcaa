//! What was read of an account.
ghost use Rattle.std.specs.Prelude.{◌≡◌, IfErr, IfOk};
ghost use Rattle.journal_keeper.specs.EntryText.{IsNoEntryText};
ghost use Rattle.journal_keeper.specs.declared.keeper.JournalError.{JournalError as AnyJournalError};
ghost use Rattle.spec_snapshots.specs.Kept.{IsKeptFrom};

use crate::rows::{AccountRows, FloorRow, KeptRow, KindRows};
use journal_keeper::keeper::JournalError;
use journal_keeper::kept_text::Mark;
use journal_keeper::loaded::{Loaded, some_history};
use journal_keeper::texts::{entry_at, missing_text};
use spec_history::entry::{Entry, Kind};
use spec_json::text::Text;
use spec_json::tree::Tree;
use spec_snapshots::kept::{KeptHistory, KindFloor, LiveObject};
use std::alloc::{AllocError, Global};

/// A row of the table.
#[derive(Clone, Copy)]
pub(crate) struct TextRow<'a> {
    pub rowid: i64,
    pub place: u64,
    pub text: &'a [u8],
}

/// What was read of an account so far.
#[derive(Drop)]
pub(crate) struct Reading {
    alloc: Global,
    rows: AccountRows,
    // What is live at the floors, in the order of the rows.
    calendars: Vec<LiveObject>,
    events: Vec<LiveObject>,
    behind: Vec<Entry>,
}

impl Reading {
    /// Nothing of an account with these floors.
    pub(crate) fn new(
        alloc: Global,
        account: &str,
        calendars: FloorRow,
        events: FloorRow,
    ) -> Result<Reading, AllocError> {
        Ok(Reading {
            alloc,
            rows: AccountRows {
                account: Text::from_str(alloc, account)?,
                next: 0,
                calendars: KindRows::new(alloc, Kind::Calendar, calendars),
                events: KindRows::new(alloc, Kind::Event, events),
            },
            calendars: Vec::new(alloc),
            events: Vec::new(alloc),
            behind: Vec::new(alloc),
        })
    }

    /// The place that the next row must have, or one in front of the floors from there on. All entries behind both floors are there.
    pub(crate) fn due(&self) -> u64 {
        let whole_from = self
            .rows
            .calendars
            .floor
            .place
            .max(self.rows.events.floor.place);
        self.rows.next.max(whole_from)
    }

    /// Whether a row may stand at this place, behind those that were read.
    fn may_stand(&self, place: u64) -> bool {
        place >= self.rows.next && place <= self.due()
    }

    /// Takes one row more.
    pub(crate) fn take(&mut self, row: TextRow<'_>) -> Result<(), JournalError>
        ensures { IfErr result (λ e. (place : _) (text : _) → e ≡ AnyJournalError.Damaged place text → IsNoEntryText text.items) }
    {
        if !self.may_stand(row.place) {
            return Err(missing_text(self.alloc, self.due()));
        }
        let entry = entry_at(self.alloc, row.place, row.text)?;
        self.rows.next = row.place.saturating_add(1);
        if self.put(row, entry)? {
            Ok(())
        } else {
            Err(missing_text(self.alloc, row.place))
        }
    }

    // Puts an entry where it belongs, in front of the floor of its kind or behind it. Tells whether it may stand there.
    fn put(&mut self, row: TextRow<'_>, entry: Entry) -> Result<bool, AllocError> {
        let mark = Mark::of(&entry.change);
        let kept = KeptRow::new(row.rowid, row.place, mark, row.text.len());
        let rows = self.rows.of_kind(mark.kind);
        if row.place >= rows.floor.place {
            rows.note(kept)?;
            self.behind.push(entry)?;
            return Ok(true);
        }
        let is_first = rows.note_live(kept)?;
        match (is_first, entry.change.object) {
            (true, Some(object)) => {
                self.put_live(mark.kind, mark.id, object)?;
                Ok(true)
            }
            _ => Ok(false),
        }
    }

    fn put_live(&mut self, kind: Kind, id: u64, object: Tree) -> Result<(), AllocError> {
        let live = match kind {
            Kind::Calendar => &mut self.calendars,
            Kind::Event => &mut self.events,
        };
        Ok(live.push(LiveObject { id, object })?)
    }

    /// What is kept of the account's history, with the rows.
    pub(crate) fn finish(self) -> Result<(Loaded, AccountRows), JournalError>
        ensures kept { IfOk result (λ done. IsKeptFrom done.0.told.items done.0.kept) }
        ensures damaged { IfErr result (λ e. (place : _) (text : _) → e ≡ AnyJournalError.Damaged place text → IsNoEntryText text.items) }
    {
        let due = self.due();
        let Reading {
            alloc,
            rows,
            calendars,
            events,
            behind,
        } = self;
        let kept = KeptHistory {
            calendars: floor(rows.calendars.floor, calendars),
            events: floor(rows.events.floor, events),
            behind,
        };
        match some_history(kept) {
            Some(loaded) => Ok((loaded, rows)),
            None => Err(missing_text(alloc, due)),
        }
    }
}

// What is live stands in order of creation, and not in that of the rows: an object's row is as new as what it became last.
fn floor(row: FloorRow, objects: Vec<LiveObject>) -> KindFloor {
    let mut live = objects;
    live.sort_unstable_by_key(|object| object.id);
    KindFloor {
        state: row.state,
        created: row.created,
        live,
    }
}
