//! Runs the program over the inputs of tables, and tells which runs come otherwise than the tables have them.
#![tactic(auto)]

mod batches;
mod connections;
mod kept_runs;

use io_edge::memory_clock::StillClock;
use row_table::files::Files;
use row_table::row::Row;
use row_table::trial::{Trial, try_rows, unless_unrolled};
use std::alloc::{AllocError, Global};
use std::io;

/// 2024-01-01T00:00:00Z.
const CLOCK: StillClock = StillClock {
    moment: 1_704_067_200,
};

/// The tables of inputs.
#[derive(Drop)]
struct ConnectionRows {
    /// The files of the rows of connections behind those that name them.
    files: Files,
}

impl Trial for ConnectionRows {
    ghost use Rattle.std.specs.Prelude.{◌||◌, bytes_eq, codes};

    ghost knows = { λ name. bytes_eq name (codes "batches") || bytes_eq name (codes "connections") || bytes_eq name (codes "kept_runs") };

    fn other_than(
        &mut self,
        alloc: Global,
        table: &str,
        row: &Row,
    ) -> Result<Option<String>, AllocError> {
        match table {
            "batches" => batches::other_than(alloc, row),
            "connections" => connections::other_than(alloc, row, &mut self.files),
            "kept_runs" => kept_runs::other_than(alloc, row, &mut self.files),
            _ => unless_unrolled(alloc, None, row),
        }
    }
}

fn main(rt: HostRuntime) -> io::Result<()> {
    let files = Vec::new(rt.alloc());
    try_rows(&rt, &mut ConnectionRows { files })
}
