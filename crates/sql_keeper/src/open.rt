//! How a keeper is opened.

use crate::file_keeper::FileKeeper;
use crate::floors::removal;
use crate::insert::{Writing, insertion};
use crate::owner::claim;
use crate::read_back::selection;
use crate::sql_keeper::SqlKeeper;
use crate::tables::{Found, VERSION, prepare};
use sqlite::{Alter, Connection, Error, ErrorCode, File, FileStore, Options, Unknown};
use sqlite_std_file::OpenError as PathError;
use std::alloc::Global;
use std::hash::{BuildHasher, RandomState};
use std::io::ErrorKind;

/// How many pages that were read a keeper has in memory.
const CACHE_PAGES: usize = 64;

/// How many written pages it has in memory before they go to the log.
const SPILL_PAGES: usize = 256;

/// Why a keeper wasn't opened.
#[derive(Clone, Copy, Debug, PartialEq, Eq)]
pub enum OpenError {
    /// Another process has the file open, or this one has.
    InUse,
    /// The system doesn't let the file be opened: no such folder, no rights, a folder or something else in its place.
    CannotOpen,
    /// The file is of another program, or no database.
    OtherProgram,
    /// The file is another account's than it is opened for.
    OtherAccount,
    /// The file has tables of this version, which a later program made.
    OtherVersion(i64),
    /// The database failed.
    Failed(Error),
    /// Memory was wanted.
    NoMemory,
}

impl From<Error> for OpenError {
    fn from(error: Error) -> OpenError {
        match error {
            Error::SqliteFailure(ErrorCode::DatabaseBusy) => OpenError::InUse,
            Error::SqliteFailure(ErrorCode::CannotOpen) => OpenError::CannotOpen,
            Error::SqliteFailure(ErrorCode::NotADatabase) => OpenError::OtherProgram,
            Error::SqliteFailure(ErrorCode::OutOfMemory) => OpenError::NoMemory,
            _ => OpenError::Failed(error),
        }
    }
}

/// The keeper over a database, which becomes a journal where it has no tables.
pub fn open_keeper<S: Alter + Drop>(
    alloc: Global,
    conn: Connection<S>,
) -> Result<SqlKeeper<S>, OpenError> {
    let mut conn = conn;
    match prepare(&mut conn)? {
        Found::Journal(VERSION) => {}
        Found::Journal(version) => return Err(OpenError::OtherVersion(version)),
        Found::Other => return Err(OpenError::OtherProgram),
    }
    let writing = Writing {
        insertion: insertion(&mut conn)?,
        removal: removal(&mut conn)?,
    };
    let selection = selection(&mut conn)?;
    Ok(SqlKeeper {
        alloc,
        conn,
        writing,
        selection,
        accounts: Vec::new(alloc),
        is_closed: false,
        faults: 0,
        damages: 0,
    })
}

/// The keeper over the file of this name, which is made where there is none. While it is open, no other process opens the file.
///
/// A torn write is taken to leave each byte old or new, so that a commit costs one sync. When the process ends the file and its log, `NAME-wal`, lie side by side, and go together.
pub fn open_file(rt: &HostRuntime, name: &str) -> Result<SqlKeeper<FileStore<File>>, OpenError> {
    let conn = connect(rt, name)?;
    open_keeper(rt.alloc(), conn)
}

/// The keeper over the file of this name, for one account: the file becomes that account's where it is nobody's. `OtherAccount` where it
/// is another one's.
pub fn open_account(rt: &HostRuntime, name: &str, account: &str) -> Result<FileKeeper, OpenError> {
    let mut keeper = boxed(rt.alloc(), open_file(rt, name)?)?;
    if claim(&mut keeper.keeper.conn, account)? {
        Ok(keeper)
    } else {
        Err(OpenError::OtherAccount)
    }
}

fn boxed(alloc: Global, keeper: SqlKeeper<FileStore<File>>) -> Result<FileKeeper, OpenError> {
    match Box::new(alloc, keeper) {
        Ok(keeper) => Ok(FileKeeper { keeper }),
        Err(_) => Err(OpenError::NoMemory),
    }
}

fn connect(rt: &HostRuntime, name: &str) -> Result<Connection<FileStore<File>>, OpenError> {
    let options = options(rt)?;
    match sqlite_std_file::open(rt, name, Unknown) {
        Ok(files) => match Connection::open_files(rt.alloc(), files, options) {
            Ok(conn) => Ok(conn),
            Err((error, _)) => Err(OpenError::from(error)),
        },
        Err(error) => Err(path_error(error)),
    }
}

fn path_error(error: PathError) -> OpenError {
    match error {
        PathError::OutOfMemory => OpenError::NoMemory,
        PathError::Busy => OpenError::InUse,
        PathError::Io(error) if error.kind() == ErrorKind::OutOfMemory => OpenError::NoMemory,
        _ => OpenError::CannotOpen,
    }
}

// Sixteen accounts with the caches that `sqlite` chooses would take 256 MB.
fn options(rt: &HostRuntime) -> Result<Options, OpenError> {
    let Ok(state) = RandomState::new(rt) else {
        return Err(OpenError::CannotOpen);
    };
    Ok(Options {
        cache_pages: CACHE_PAGES,
        spill_pages: SPILL_PAGES,
        ..Options::new(state.hash_one(&0u8))
    })
}
