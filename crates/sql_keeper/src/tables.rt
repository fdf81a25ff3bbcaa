//! The tables: what the file is; the texts of the entries with their accounts and places, in the order in which they were kept; and the floors of the accounts, up to
//! which the texts alone are left that put what was live there.

use sqlite::{Alter, Connection, Error, ErrorCode, Row};

/// The version of the tables.
pub const VERSION: i64 = 2;

/// The version of tables without floors, which become those of this one.
const WITHOUT_FLOORS: i64 = 1;

/// The name of the program that the file is of.
const PROGRAM: &str = "jmapd";

/// What a database is of.
#[derive(Clone, Copy, Debug, PartialEq, Eq)]
pub(crate) enum Found {
    /// A journal with tables of this version.
    Journal(i64),
    /// Another program's.
    Other,
}

/// Makes the tables where the database has none, and tells what it is of.
pub(crate) fn prepare<S: Alter>(conn: &mut Connection<S>) -> Result<Found, Error> {
    if objects(conn)? == 0 {
        make(conn)?;
        return Ok(Found::Journal(VERSION));
    }
    match signs(conn) {
        Ok(rows) => up_to_date(conn, owner(&rows)?),
        Err(Error::SqlInputError(_)) => Ok(Found::Other),
        Err(error) => Err(error),
    }
}

fn objects<S: Alter>(conn: &mut Connection<S>) -> Result<i64, Error> {
    conn.query_row("SELECT COUNT(*) FROM sqlite_schema", &[])?
        .get(0)
}

fn signs<S: Alter>(conn: &mut Connection<S>) -> Result<Vec<Row>, Error> {
    conn.query_all("SELECT program, version FROM about", &[])
}

// Tables and sign come in one transaction: a stop leaves both or none. The texts have no index: a load tests their places one by one anyway, and
// a database that has one looks up each of its keys when it is opened.
fn make<S: Alter>(conn: &mut Connection<S>) -> Result<(), Error> {
    if !conn.is_autocommit() {
        return Err(Error::SqliteFailure(ErrorCode::TransactionState));
    }
    let mut transaction = conn.transaction();
    transaction.execute_batch(
        "CREATE TABLE about (program TEXT NOT NULL, version INTEGER NOT NULL) STRICT; CREATE TABLE entry (account TEXT NOT NULL, place INTEGER NOT NULL, text BLOB NOT NULL) STRICT; CREATE TABLE floor (account TEXT NOT NULL, kind TEXT NOT NULL, state INTEGER NOT NULL, created INTEGER NOT NULL, place INTEGER NOT NULL) STRICT; INSERT INTO about (program, version) VALUES ('jmapd', 2)",
    )?;
    transaction.commit()
}

// Lets tables without floors have some: none of them, as all entries are there. A stop leaves the file of the one version or of the other.
fn up_to_date<S: Alter>(conn: &mut Connection<S>, found: Found) -> Result<Found, Error> {
    if found != Found::Journal(WITHOUT_FLOORS) {
        return Ok(found);
    }
    if !conn.is_autocommit() {
        return Err(Error::SqliteFailure(ErrorCode::TransactionState));
    }
    let mut transaction = conn.transaction();
    transaction.execute_batch(
        "CREATE TABLE floor (account TEXT NOT NULL, kind TEXT NOT NULL, state INTEGER NOT NULL, created INTEGER NOT NULL, place INTEGER NOT NULL) STRICT; UPDATE about SET version = 2",
    )?;
    transaction.commit()?;
    Ok(Found::Journal(VERSION))
}

fn owner(rows: &[Row]) -> Result<Found, Error> {
    let [row] = rows else {
        return Ok(Found::Other);
    };
    let program: String = row.get(0)?;
    if program.as_str() != PROGRAM {
        return Ok(Found::Other);
    }
    Ok(Found::Journal(row.get(1)?))
}
