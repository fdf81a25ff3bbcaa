//! Rows that are tried, one after the other.
ghost use Rattle.std.specs.Prelude.{◌≡◌, ℕ, All, Bool, IfOk, IsNone, IsSome, List, None, codes, count_by, false, is_some, length, option_map, string_bytes};
ghost use Rattle.row_table.specs.Answers.{other_than};

use crate::line::unrolled;
use crate::row::Row;
use crate::table::{RowTable, read_tables};
use crate::tally::RowTally;
use std::alloc::{AllocError, Global};
use std::io;

/// What is told of a row that can't be read.
pub const NOT_READ: &str = "the row can't be read";

/// What the rows of tables are tried on.
pub trait Trial {
    /// Whether a table of this name is known.
    ghost knows: { List ℕ → Bool };

    /// What came of a row of the table of this name, where it isn't what the table has: something, where the table isn't known.
    fn other_than(
        &mut self,
        alloc: Global,
        table: &str,
        row: &Row,
    ) -> Result<Option<String>, AllocError>
        ensures { IfOk result (λ other. knows table.now ≡ false → IsSome other) };
}

/// Tries the rows of the tables on standard input, tells those of which something else came, and of each table how many there were.
pub fn try_rows<T: Trial>(rt: &HostRuntime, trial: &mut T) -> io::Result<()> {
    for table in &read_tables(rt)? {
        let others = others_of(rt.alloc(), trial, table)?;
        for (row, other) in table.rows.iter().zip(&others) {
            if let Some(other) = other {
                row.tell(rt, other.as_str())?;
            }
        }
        tell_tally(rt, table.name.as_str(), &tally_of(&others))?;
    }
    Ok(())
}

/// What came of each row in place of its answer.
fn others_of<T: Trial>(
    alloc: Global,
    trial: &mut T,
    table: &RowTable,
) -> Result<Vec<Option<String>>, AllocError>
    ensures rows { IfOk result (λ others. length others.items ≡ length table.now.rows.items) }
    ensures unknown { IfOk result (λ others. T.knows (string_bytes table.now.name) ≡ false → All (λ other. IsSome other) others.items) }
{
    let mut others = Vec::new(alloc);
    for row in &table.rows {
        others.push(trial.other_than(alloc, table.name.as_str(), row)?)?;
    }
    Ok(others)
}

/// How many rows were tried, and of how many something else came.
fn tally_of(others: &[Option<String>]) -> RowTally
    ensures rows { result.rows ≡ length others.now }
    ensures others { result.others ≡ count_by (λ other. is_some other) others.now }
{
    RowTally::of(
        others.len() as u64,
        others.iter().filter(|other| other.is_some()).count() as u64,
    )
}

fn tell_tally(rt: &HostRuntime, name: &str, tally: &RowTally) -> io::Result<()> {
    if name.is_empty() {
        println!(rt; "{tally}")
    } else {
        println!(rt; "{name}: {tally}")
    }
}

/// What came of a row, where it isn't this answer; nothing came where the row can't be read.
pub fn unless_answered(
    alloc: Global,
    came: Option<String>,
    answer: &str,
) -> Result<Option<String>, AllocError>
    ensures { IfOk result (λ other. option_map string_bytes other ≡ other_than (option_map string_bytes came) answer.now) }
{
    match came {
        Some(came) if came.as_str() == answer => Ok(None),
        Some(came) => Ok(Some(came)),
        None => not_read(alloc),
    }
}

/// What came of a row, where it isn't the text of its answer.
pub fn unless_unrolled(
    alloc: Global,
    came: Option<String>,
    row: &Row,
) -> Result<Option<String>, AllocError>
    ensures { IsNone came → IfOk result (λ other. IsSome other) }
{
    match unrolled(alloc, row.answer.as_str())? {
        Some(answer) => unless_answered(alloc, came, answer.as_str()),
        None => not_read(alloc),
    }
}

/// That a row can't be read.
pub fn not_read(alloc: Global) -> Result<Option<String>, AllocError>
    ensures { IfOk result (λ other. option_map string_bytes other ≡ other_than None (codes "")) }
{
    Ok(Some(String::from_str(alloc, NOT_READ)?))
}
