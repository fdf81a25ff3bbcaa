//! Entries from the database.
ghost use Rattle.std.specs.Prelude.{◌≡◌, IfErr, IfOk};
ghost use Rattle.journal_keeper.specs.EntryText.{IsNoEntryText};
ghost use Rattle.journal_keeper.specs.declared.keeper.JournalError.{JournalError as AnyJournalError};
ghost use Rattle.spec_snapshots.specs.Kept.{IsKeptFrom};

use crate::floors::{floor_of, whole};
use crate::reading::{Reading, TextRow};
use crate::rows::AccountRows;
use journal_keeper::keeper::JournalError;
use journal_keeper::loaded::Loaded;
use journal_keeper::texts::missing_text;
use spec_history::entry::Kind;
use sqlite::types::ValueRef;
use sqlite::{Alter, Connection, Error, Row, Rows, Statement, params};
use std::alloc::{AllocError, Global};

/// Why entries weren't read.
#[derive(Drop)]
pub(crate) enum Trouble {
    /// The database failed.
    Base(Error),
    /// A text is damaged, or memory was wanted.
    Text(JournalError),
}

impl From<Error> for Trouble {
    ghost use Rattle.std.specs.Prelude.{◌≡◌};
    ghost use Rattle.sql_keeper.specs.declared.read_back.Trouble.TheVariants.{Base};

    ghost from_gives = { λ error t. t ≡ Base error };

    fn from(error: Error) -> Trouble {
        Trouble::Base(error)
    }
}

impl From<JournalError> for Trouble {
    ghost use Rattle.std.specs.Prelude.{◌≡◌};
    ghost use Rattle.sql_keeper.specs.declared.read_back.Trouble.TheVariants.{Text};

    ghost from_gives = { λ error t. t ≡ Text error };

    fn from(error: JournalError) -> Trouble {
        Trouble::Text(error)
    }
}

impl From<AllocError> for Trouble {
    ghost use Rattle.std.specs.Prelude.{◌≡◌};
    ghost use Rattle.journal_keeper.specs.declared.keeper.JournalError.TheVariants.{NoMemory};
    ghost use Rattle.sql_keeper.specs.declared.read_back.Trouble.TheVariants.{Text};

    ghost from_gives = { λ _ t. t ≡ Text NoMemory };

    fn from(_: AllocError) -> Trouble {
        Trouble::Text(JournalError::NoMemory)
    }
}

pub(crate) fn selection<S: Alter>(conn: &mut Connection<S>) -> Result<Statement, Error> {
    conn.prepare("SELECT rowid, place, text FROM entry WHERE account = ?1 ORDER BY rowid")
}

/// What there is of an account, with its rows: the entries in the order in which they were kept. One row is held at a time.
pub(crate) fn read_all<S: Alter>(
    alloc: Global,
    conn: &mut Connection<S>,
    selection: &Statement,
    account: &str,
) -> Result<(Loaded, AccountRows), Trouble>
    ensures kept { IfOk result (λ done. IsKeptFrom done.0.told.items done.0.kept) }
    ensures damaged { IfErr result (λ t. (place : _) (text : _) → t ≡ Trouble.Text (AnyJournalError.Damaged place text) → IsNoEntryText text.items) }
{
    let calendars = floor_of(conn, account, Kind::Calendar)?;
    let events = floor_of(conn, account, Kind::Event)?;
    let mut reading = Reading::new(alloc, account, calendars, events)?;
    take_rows(alloc, conn, selection, account, &mut reading)?;
    Ok(reading.finish()?)
}

// Takes all rows of an account.
fn take_rows<S: Alter>(
    alloc: Global,
    conn: &mut Connection<S>,
    selection: &Statement,
    account: &str,
    reading: &mut Reading,
) -> Result<(), Trouble>
    ensures { IfErr result (λ t. (place : _) (text : _) → t ≡ Trouble.Text (AnyJournalError.Damaged place text) → IsNoEntryText text.items) }
{
    let mut rows = rows_of(conn, selection, account)?;
    for _ in 0..u64::MAX {
        if !take_next(alloc, reading, &mut rows)? {
            return Ok(());
        }
    }
    Err(Trouble::Text(JournalError::Failed))
}

fn rows_of<'a, S: Alter>(
    conn: &'a mut Connection<S>,
    selection: &Statement,
    account: &str,
) -> Result<Rows<'a, S>, Error> {
    selection.query(conn, params![account])
}

fn next_row<'a, S: Alter>(rows: &'a mut Rows<'_, S>) -> Result<Option<&'a Row>, Error> {
    rows.next()
}

// Takes the next row. Tells whether there was one.
fn take_next<S: Alter>(
    alloc: Global,
    reading: &mut Reading,
    rows: &mut Rows<'_, S>,
) -> Result<bool, Trouble>
    ensures { IfErr result (λ t. (place : _) (text : _) → t ≡ Trouble.Text (AnyJournalError.Damaged place text) → IsNoEntryText text.items) }
{
    match next_row(rows)? {
        Some(row) => {
            take_row(alloc, reading, row)?;
            Ok(true)
        }
        None => Ok(false),
    }
}

// A row whose text is no blob: the account has no text there.
fn take_row(alloc: Global, reading: &mut Reading, row: &Row) -> Result<(), Trouble>
    ensures { IfErr result (λ t. (place : _) (text : _) → t ≡ Trouble.Text (AnyJournalError.Damaged place text) → IsNoEntryText text.items) }
{
    match text_in(row) {
        Some(text) => Ok(reading.take(text)?),
        None => Err(Trouble::Text(missing_text(alloc, reading.due()))),
    }
}

fn text_in(row: &Row) -> Option<TextRow<'_>> {
    match (row.get_ref(0), row.get_ref(1), row.get_ref(2)) {
        (Ok(ValueRef::Int(rowid)), Ok(ValueRef::Int(place)), Ok(ValueRef::Blob(text))) => {
            Some(TextRow {
                rowid,
                place: whole(place),
                text,
            })
        }
        _ => None,
    }
}
