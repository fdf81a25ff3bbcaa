//! Whose a database is that has the entries of one account alone.

use sqlite::types::ValueRef;
use sqlite::{Alter, Connection, Error, ErrorCode, params};

/// Lets a journal be an account's where it is nobody's and has no entries of another account. Tells whether it is that account's now.
pub(crate) fn claim<S: Alter>(conn: &mut Connection<S>, account: &str) -> Result<bool, Error> {
    let owned = "SELECT COUNT(*) FROM sqlite_schema WHERE name = 'owner'";
    if is_any(conn, owned, &[])? {
        let own = "SELECT COUNT(*) FROM owner WHERE account = ?1";
        return is_any(conn, own, params![account]);
    }
    let others = "SELECT COUNT(*) FROM entry WHERE account <> ?1";
    if is_any(conn, others, params![account])? {
        return Ok(false);
    }
    own(conn, account)?;
    Ok(true)
}

fn is_any<S: Alter>(
    conn: &mut Connection<S>,
    query: &str,
    params: &[ValueRef<'_>],
) -> Result<bool, Error> {
    let count: i64 = conn.query_row(query, params)?.get(0)?;
    Ok(count > 0)
}

// Table and name come in one transaction: a stop leaves both or none.
fn own<S: Alter>(conn: &mut Connection<S>, account: &str) -> Result<(), Error> {
    if !conn.is_autocommit() {
        return Err(Error::SqliteFailure(ErrorCode::TransactionState));
    }
    let mut transaction = conn.transaction();
    transaction.execute_batch("CREATE TABLE owner (account TEXT NOT NULL) STRICT")?;
    transaction.execute("INSERT INTO owner (account) VALUES (?1)", params![account])?;
    transaction.commit()
}
