//! Tries what tells times on the rows of tables: recurrence rules, wall times, windows and busy periods.
#![tactic(auto)]

ghost use Rattle.std.specs.Prelude.{◌≡◌, ◌||◌, IfOk, IsNone, bytes_eq, codes, false};

mod rules;
mod windows;

use row_table::line::tree_in;
use row_table::row::Row;
use row_table::trial::{Trial, try_rows, unless_unrolled};
use std::alloc::{AllocError, Global};
use std::io;

/// The tables of times.
#[derive(Drop)]
struct RuleRows;

impl Trial for RuleRows {
    ghost use Rattle.std.specs.Prelude.{◌||◌, bytes_eq, codes};

    ghost knows = { λ name. bytes_eq name (codes "rules") || bytes_eq name (codes "windows") };

    fn other_than(
        &mut self,
        alloc: Global,
        table: &str,
        row: &Row,
    ) -> Result<Option<String>, AllocError> {
        unless_unrolled(alloc, came(alloc, table, row.asked.as_str())?, row)
    }
}

/// What comes of a question, none where it can't be read.
fn came(alloc: Global, table: &str, asked: &str) -> Result<Option<String>, AllocError>
    ensures { (bytes_eq table.now (codes "rules") || bytes_eq table.now (codes "windows")) ≡ false → IfOk result (λ came. IsNone came) }
{
    let Some(asked) = tree_in(alloc, asked)? else {
        return Ok(None);
    };
    match table {
        "rules" => rules::told(alloc, &asked),
        "windows" => windows::told(alloc, &asked),
        _ => Ok(None),
    }
}

fn main(rt: HostRuntime) -> io::Result<()> {
    try_rows(&rt, &mut RuleRows)
}
