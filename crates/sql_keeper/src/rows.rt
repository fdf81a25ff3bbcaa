//! The rows of an account, as a keeper knows them: which of them may go, once changes came that take their place.

use journal_keeper::kept_text::{KeptText, Mark};
use spec_history::entry::Kind;
use spec_json::text::Text;
use std::alloc::{AllocError, Global};
use std::collections::{BTreeMap, VecDeque};

/// How many changes back of a kind a state is still answered from.
const WINDOW: usize = 4096;

/// How many bytes the objects that changes of a kind put behind a state may have together, where it is still answered from.
const WINDOW_BYTES: u64 = 16_777_216;

/// How many bytes of an entry's text are not its object's, at most.
const MOST_BESIDE_OBJECT: u64 = 200;

/// A row of an entry.
#[derive(Clone, Copy, Drop)]
pub(crate) struct KeptRow {
    /// Its number in the table.
    pub rowid: i64,
    /// Its place among those of the account.
    pub place: u64,
    /// What its entry changes.
    pub mark: Mark,
    /// How many bytes of the object count, at least.
    pub size: u64,
}

impl KeptRow {
    /// The row of a text of so many bytes.
    pub(crate) fn new(rowid: i64, place: u64, mark: Mark, length: usize) -> KeptRow {
        let size = if mark.puts {
            (length as u64).saturating_sub(MOST_BESIDE_OBJECT)
        } else {
            0
        };
        KeptRow {
            rowid,
            place,
            mark,
            size,
        }
    }
}

/// Where a kind has its floor (RFC 8620 section 5.2): no state up to it is answered from.
#[derive(Clone, Copy, Debug, PartialEq, Eq, Drop)]
pub(crate) struct FloorRow {
    /// The state: how many changes of the kind there were by then.
    pub state: u64,
    /// How many objects of the kind were created by then.
    pub created: u64,
    /// The place of the first entry of the kind behind it.
    pub place: u64,
}

impl FloorRow {
    /// The floor in front of all entries.
    pub(crate) fn none() -> FloorRow {
        FloorRow {
            state: 0,
            created: 0,
            place: 0,
        }
    }
}

/// The rows of a kind of an account.
#[derive(Drop)]
pub(crate) struct KindRows {
    pub kind: Kind,
    pub floor: FloorRow,
    /// Whether the floor isn't that of the table any more.
    pub is_moved: bool,
    /// Those behind the floor.
    behind: VecDeque<KeptRow>,
    /// How many bytes of their objects count, at least.
    bytes: u64,
    /// Those of the objects that were live at the floor, by the numbers of these.
    live: BTreeMap<u64, i64>,
}

impl KindRows {
    pub(crate) fn new(alloc: Global, kind: Kind, floor: FloorRow) -> KindRows {
        KindRows {
            kind,
            floor,
            is_moved: false,
            behind: VecDeque::new(alloc),
            bytes: 0,
            live: BTreeMap::new(alloc),
        }
    }

    /// Notes a row behind the floor.
    pub(crate) fn note(&mut self, row: KeptRow) -> Result<(), AllocError> {
        self.behind.push_back(row)?;
        self.bytes = self.bytes.saturating_add(row.size);
        Ok(())
    }

    /// Notes a row of an object that was live at the floor. Tells whether there was none of its number.
    pub(crate) fn note_live(&mut self, row: KeptRow) -> Result<bool, AllocError> {
        Ok(self.live.insert(row.mark.id, row.rowid)?.is_none())
    }

    /// Moves the floor over the oldest row, where not even the next state is answered from, and tells which rows go with that.
    pub(crate) fn pass_oldest(&mut self) -> Result<Option<Gone>, AllocError> {
        let Some(row) = self.oldest_beyond() else {
            return Ok(None);
        };
        let _ = self.behind.pop_front();
        self.bytes = self.bytes.saturating_sub(row.size);
        let before = self.live.remove(&row.mark.id);
        let own = if row.mark.puts {
            self.live.insert(row.mark.id, row.rowid)?;
            None
        } else {
            Some(row.rowid)
        };
        self.floor = FloorRow {
            state: self.floor.state.saturating_add(1),
            created: self.floor.created.max(row.mark.id),
            place: self.first_behind(row.place),
        };
        self.is_moved = true;
        Ok(Some(Gone { before, own }))
    }

    // The oldest row, where more changes lie behind it than are told from, or more bytes.
    fn oldest_beyond(&self) -> Option<KeptRow> {
        let row = *self.behind.front()?;
        let is_beyond = self.behind.len() > WINDOW + 1
            || self.bytes.saturating_sub(row.size) > WINDOW_BYTES;
        if is_beyond { Some(row) } else { None }
    }

    // The place of the first row behind the floor; one further than the last, where there is none.
    fn first_behind(&self, last: u64) -> u64 {
        match self.behind.front() {
            Some(row) => row.place,
            None => last.saturating_add(1),
        }
    }
}

/// The rows that go as a floor moves over one: that of the object's earlier state, and its own, where it removes the object.
#[derive(Clone, Copy, Drop)]
pub(crate) struct Gone {
    pub before: Option<i64>,
    pub own: Option<i64>,
}

/// The rows of an account.
#[derive(Drop)]
pub(crate) struct AccountRows {
    pub account: Text,
    /// The place of the next entry.
    pub next: u64,
    pub calendars: KindRows,
    pub events: KindRows,
}

impl AccountRows {
    /// Those of a kind.
    pub(crate) fn of_kind(&mut self, kind: Kind) -> &mut KindRows {
        match kind {
            Kind::Calendar => &mut self.calendars,
            Kind::Event => &mut self.events,
        }
    }

    /// Notes the row of the next text.
    pub(crate) fn note_next(&mut self, rowid: i64, text: &KeptText) -> Result<(), AllocError> {
        let mark = text.mark();
        let row = KeptRow::new(rowid, self.next, mark, text.text().len());
        self.next = self.next.saturating_add(1);
        self.of_kind(mark.kind).note(row)
    }
}

/// The rows of an account among those of others, where they are known.
pub(crate) fn rows_of<'a>(
    accounts: &'a mut Vec<AccountRows>,
    account: &str,
) -> Option<&'a mut AccountRows> {
    let place = place_of(accounts, account)?;
    accounts.get_mut(place)
}

fn place_of(accounts: &[AccountRows], account: &str) -> Option<usize> {
    accounts
        .iter()
        .position(|rows| rows.account.as_str() == account)
}

/// Puts the rows of an account in the place of those that it had.
pub(crate) fn put_rows(
    accounts: &mut Vec<AccountRows>,
    rows: AccountRows,
) -> Result<(), AllocError> {
    match place_of(accounts, rows.account.as_str()) {
        Some(place) => {
            if let Some(known) = accounts.get_mut(place) {
                *known = rows;
            }
            Ok(())
        }
        None => Ok(accounts.push(rows)?),
    }
}
