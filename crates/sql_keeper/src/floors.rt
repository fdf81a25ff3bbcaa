//! The floors of accounts in the database.

use crate::rows::{AccountRows, FloorRow, Gone, KindRows};
use spec_history::entry::Kind;
use sqlite::types::ValueRef;
use sqlite::{Alter, Connection, Error, ErrorCode, Row, Statement, Transaction, params};

/// The word for a kind, which is that of its entries' texts.
fn kind_word(kind: Kind) -> &'static str {
    match kind {
        Kind::Calendar => "calendar",
        Kind::Event => "event",
    }
}

pub(crate) fn removal<S: Alter>(conn: &mut Connection<S>) -> Result<Statement, Error> {
    conn.prepare("DELETE FROM entry WHERE rowid = ?1")
}

/// The floor of a kind of an account: that in front of all entries, where the table has none.
pub(crate) fn floor_of<S: Alter>(
    conn: &mut Connection<S>,
    account: &str,
    kind: Kind,
) -> Result<FloorRow, Error> {
    let rows = conn.query_all(
        "SELECT state, created, place FROM floor WHERE account = ?1 AND kind = ?2",
        params![account, kind_word(kind)],
    )?;
    match rows.first() {
        Some(row) => floor_in(row),
        None => Ok(FloorRow::none()),
    }
}

fn floor_in(row: &Row) -> Result<FloorRow, Error> {
    Ok(FloorRow {
        state: whole(row.get(0)?),
        created: whole(row.get(1)?),
        place: whole(row.get(2)?),
    })
}

// A number that isn't below 0, which no number of a journal is.
pub(crate) fn whole(number: i64) -> u64 {
    u64::try_from(number).unwrap_or(0)
}

pub(crate) fn stored(number: u64) -> i64 {
    i64::try_from(number).unwrap_or(i64::MAX)
}

/// Moves the floors of an account over at most so many entries of a kind, as far as no state behind them is lost that is answered from, and lets go of the rows that
/// nothing asks for any more.
pub(crate) fn settle<S: Alter>(
    transaction: &mut Transaction<'_, S>,
    removal: &Statement,
    rows: &mut AccountRows,
    most: usize,
) -> Result<(), Error> {
    let account = rows.account.as_str();
    settle_kind(transaction, removal, account, &mut rows.calendars, most)?;
    settle_kind(transaction, removal, account, &mut rows.events, most)
}

fn settle_kind<S: Alter>(
    transaction: &mut Transaction<'_, S>,
    removal: &Statement,
    account: &str,
    rows: &mut KindRows,
    most: usize,
) -> Result<(), Error> {
    for _ in 0..most {
        let Some(gone) = passed(rows)? else {
            break;
        };
        remove(transaction, removal, gone.before)?;
        remove(transaction, removal, gone.own)?;
    }
    if rows.is_moved {
        write_floor(transaction, account, rows.kind, rows.floor)?;
        rows.is_moved = false;
    }
    Ok(())
}

fn passed(rows: &mut KindRows) -> Result<Option<Gone>, Error> {
    match rows.pass_oldest() {
        Ok(gone) => Ok(gone),
        Err(_) => Err(Error::SqliteFailure(ErrorCode::OutOfMemory)),
    }
}

fn remove<S: Alter>(
    transaction: &mut Transaction<'_, S>,
    removal: &Statement,
    rowid: Option<i64>,
) -> Result<(), Error> {
    if let Some(rowid) = rowid {
        transaction.execute_prepared(removal, &[ValueRef::Int(rowid)])?;
    }
    Ok(())
}

fn write_floor<S: Alter>(
    transaction: &mut Transaction<'_, S>,
    account: &str,
    kind: Kind,
    floor: FloorRow,
) -> Result<(), Error> {
    let values = &[
        ValueRef::Text(account.as_bytes()),
        ValueRef::Text(kind_word(kind).as_bytes()),
        ValueRef::Int(stored(floor.state)),
        ValueRef::Int(stored(floor.created)),
        ValueRef::Int(stored(floor.place)),
    ];
    let update =
        "UPDATE floor SET state = ?3, created = ?4, place = ?5 WHERE account = ?1 AND kind = ?2";
    if transaction.execute(update, values)? == 0 {
        let insert =
            "INSERT INTO floor (account, kind, state, created, place) VALUES (?1, ?2, ?3, ?4, ?5)";
        transaction.execute(insert, values)?;
    }
    Ok(())
}
