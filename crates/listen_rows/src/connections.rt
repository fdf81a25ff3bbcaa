//! Connections in memory.
use io_edge::memory_sink::MemSink;
use io_edge::memory_source::MemSource;
use listen_edge::memory_listener::MemConnection;
use row_table::files::bytes_of;
use spec_json::tree::Tree;
use std::alloc::{AllocError, Global};
use std::fmt::Write;

/// A connection for each item, whose peer sends its bytes and ends.
pub fn connections_of(alloc: Global, items: &[Tree]) -> Result<Vec<MemConnection>, AllocError> {
    let mut connections = Vec::new(alloc);
    for item in items {
        connections.push(MemConnection {
            input: MemSource::new(bytes_of(alloc, item)?, usize::MAX, Vec::new(alloc)),
            output: MemSink::new(alloc, Vec::new(alloc)),
        })?;
    }
    Ok(connections)
}

/// The numbers of the calls that are to fail, which may be absent.
pub fn failing(alloc: Global, asked: &Tree) -> Result<Vec<u64>, AllocError> {
    failing_at(alloc, asked, "failing")
}

/// The numbers of the calls at a key that are to fail, which may be absent.
pub fn failing_at(alloc: Global, asked: &Tree, key: &str) -> Result<Vec<u64>, AllocError> {
    let mut numbers = Vec::new(alloc);
    for item in asked.list_at(key).unwrap_or(&[]) {
        if let Tree::Whole(number) = item {
            numbers.push(u64::try_from(number.get()).unwrap_or(u64::MAX))?;
        }
    }
    Ok(numbers)
}

/// Tells what was written of a connection.
pub fn tell_output(
    alloc: Global,
    told: &mut String,
    number: u32,
    output: &MemSink,
) -> Result<(), AllocError> {
    let written = String::from_utf8_lossy(alloc, output.bytes().unwrap_or_default())?;
    write!(told, " | {number}: {written:?}")?;
    Ok(())
}
