//! Texts into the database.

use crate::floors::{settle, stored};
use crate::rows::{AccountRows, rows_of};
use journal_keeper::kept_text::KeptText;
use sqlite::types::ValueRef;
use sqlite::{Alter, Connection, Error, ErrorCode, Statement, Transaction};

/// Over how many entries more than it keeps a keep moves a floor, at most: so a journal that never had floors is made shorter keep by keep, with no pause.
const MOST_PASSED: usize = 1024;

/// The statements of a keep.
#[derive(Drop)]
pub(crate) struct Writing {
    pub insertion: Statement,
    pub removal: Statement,
}

pub(crate) fn insertion<S: Alter>(conn: &mut Connection<S>) -> Result<Statement, Error> {
    conn.prepare("INSERT INTO entry (account, place, text) VALUES (?1, ?2, ?3)")
}

/// Writes texts behind those of their accounts, whose rows are known, and lets go of rows that nothing asks for any more, in one transaction, which is undone where
/// it is dropped.
pub(crate) fn insert_all<S: Alter>(
    conn: &mut Connection<S>,
    writing: &Writing,
    accounts: &mut Vec<AccountRows>,
    texts: &[KeptText],
) -> Result<(), Error> {
    if !conn.is_autocommit() {
        return Err(Error::SqliteFailure(ErrorCode::TransactionState));
    }
    let mut transaction = conn.transaction();
    for text in texts {
        let Some(rows) = rows_of(accounts, text.account()) else {
            return Err(Error::SqliteFailure(ErrorCode::TransactionState));
        };
        insert(&mut transaction, &writing.insertion, rows, text)?;
    }
    let most = texts.len().saturating_add(MOST_PASSED);
    settle_all(&mut transaction, &writing.removal, accounts, most)?;
    transaction.commit()
}

fn insert<S: Alter>(
    transaction: &mut Transaction<'_, S>,
    insertion: &Statement,
    rows: &mut AccountRows,
    text: &KeptText,
) -> Result<(), Error> {
    transaction.execute_prepared(
        insertion,
        &[
            ValueRef::Text(text.account().as_bytes()),
            ValueRef::Int(stored(rows.next)),
            ValueRef::Blob(text.text()),
        ],
    )?;
    match rows.note_next(transaction.last_insert_rowid(), text) {
        Ok(()) => Ok(()),
        Err(_) => Err(Error::SqliteFailure(ErrorCode::OutOfMemory)),
    }
}

fn settle_all<S: Alter>(
    transaction: &mut Transaction<'_, S>,
    removal: &Statement,
    accounts: &mut Vec<AccountRows>,
    most: usize,
) -> Result<(), Error> {
    for rows in accounts.iter_mut() {
        settle(transaction, removal, rows, most)?;
    }
    Ok(())
}
