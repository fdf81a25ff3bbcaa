//! Tries what finds clashes and slots on the rows of tables: pairs of series, rooms with a proposed series, and rooms with a wish. An argument is the number of times that each decision
//! is made, for `bench/clashes.py`, `bench/rooms.py` and `bench/slots.py` to time.
#![tactic(auto)]

ghost use Rattle.std.specs.Prelude.{◌≡◌, ◌||◌, IfOk, IsNone, bytes_eq, codes, false};

mod clashes;
mod limits;
mod rooms;
mod series;
mod slots;

use row_table::line::tree_in;
use row_table::row::Row;
use row_table::trial::{Trial, try_rows, unless_unrolled};
use row_table::words::times_in;
use std::alloc::{AllocError, Global};
use std::io;

/// The tables of series.
#[derive(Drop)]
struct RoomRows {
    /// How often each decision is made.
    times: u32,
}

impl Trial for RoomRows {
    ghost use Rattle.std.specs.Prelude.{◌||◌, bytes_eq, codes};

    ghost knows = { λ name. bytes_eq name (codes "clashes") || bytes_eq name (codes "rooms") || bytes_eq name (codes "slots") };

    fn other_than(
        &mut self,
        alloc: Global,
        table: &str,
        row: &Row,
    ) -> Result<Option<String>, AllocError> {
        let came = came(alloc, table, row.asked.as_str(), self.times)?;
        unless_unrolled(alloc, came, row)
    }
}

/// What comes of a question, none where it can't be read.
fn came(alloc: Global, table: &str, asked: &str, times: u32) -> Result<Option<String>, AllocError>
    ensures { (bytes_eq table.now (codes "clashes") || bytes_eq table.now (codes "rooms") || bytes_eq table.now (codes "slots")) ≡ false → IfOk result (λ came. IsNone came) }
{
    let Some(asked) = tree_in(alloc, asked)? else {
        return Ok(None);
    };
    match table {
        "clashes" => Ok(Some(clashes::told(alloc, &asked, times)?)),
        "rooms" => Ok(Some(rooms::told(alloc, &asked, times)?)),
        "slots" => Ok(Some(slots::told(alloc, &asked, times)?)),
        _ => Ok(None),
    }
}

fn main(rt: HostRuntime) -> io::Result<()> {
    let times = times_in(&rt)?;
    try_rows(&rt, &mut RoomRows { times })
}
