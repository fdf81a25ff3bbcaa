//! Serves the connections of a table by several workers, and tells which come otherwise than the table has them.
#![tactic(auto)]

mod connections;
mod gated;
mod meeting;
mod sites;
mod sockets;
mod workers;

use io_edge::memory_opener::MemOpener;
use row_table::files::{Files, files_in};
use row_table::line::{tree_in, unrolled};
use row_table::row::Row;
use row_table::table::read_rows;
use row_table::tally::RowTally;
use row_table::trial::NOT_READ;
use spec_json::tree::Tree;
use std::alloc::{AllocError, Global};
use std::io;
use std::sync::Wait;
use std::thread::Threads;

/// What comes of a row, where it can be read: `words` are run over a host in memory, and a row without words is one worker's.
fn came<R: Threads + Wait + Copy + Send + Drop + 'static>(
    rt: R,
    alloc: Global,
    asked: &Tree,
    files: &Files,
) -> Result<Option<String>, AllocError> {
    if asked.text_at("words").is_none() {
        return workers::told(rt, alloc, asked);
    }
    let mut copies = Vec::new(alloc);
    for (name, bytes) in files {
        copies.push((name.clone()?, bytes.as_slice().to_vec(alloc)?))?;
    }
    sites::told(
        rt,
        alloc,
        asked,
        MemOpener::new(alloc, copies, Vec::new(alloc)),
    )
}

/// What came of a row, where it isn't what the table has.
fn other_than<R: Threads + Wait + Copy + Send + Drop + 'static>(
    rt: R,
    alloc: Global,
    row: &Row,
    files: &Files,
) -> Result<Option<String>, AllocError> {
    let (Some(asked), Some(answer)) = (
        tree_in(alloc, row.asked.as_str())?,
        unrolled(alloc, row.answer.as_str())?,
    ) else {
        return Ok(Some(String::from_str(alloc, NOT_READ)?));
    };
    match came(rt, alloc, &asked, files)? {
        Some(came) if came.as_str() == answer.as_str() => Ok(None),
        Some(came) => Ok(Some(came)),
        None => Ok(Some(String::from_str(alloc, NOT_READ)?)),
    }
}

fn main(rt: HostRuntime) -> io::Result<()> {
    let alloc = rt.alloc();
    let mut tally = RowTally::new();
    let mut files = Vec::new(alloc);
    for row in &read_rows(&rt)? {
        // The files of the rows behind it.
        if row.asked.as_str() == "files" {
            match files_in(alloc, row.answer.as_str())? {
                Some(named) => files = named,
                None => row.tell(&rt, NOT_READ)?,
            }
        } else {
            let other = other_than(rt, alloc, row, &files)?;
            if let Some(other) = &other {
                row.tell(&rt, other.as_str())?;
            }
            tally.count(other.is_none());
        }
    }
    println!(rt; "{tally}")
}
