//! Sends the requests of a table to a desk over two accounts, and tells which come otherwise than the table has them.
#![tactic(auto)]

mod accounts;
mod batches;
mod connections;
mod openings;
mod pair_desk;

use row_table::line::{tree_in, unrolled};
use row_table::row::Row;
use row_table::trial::{NOT_READ, Trial, try_rows, unless_answered};
use spec_json::tree::Tree;
use std::alloc::{AllocError, Global};
use std::io;

/// What comes of a row, where it can be read: an account opens at `entries`, each so many times as it says, or doesn't; or a `request` is answered after those `before` it, and an `input` is served as a connection, each on a
/// desk that makes `most` calls.
fn came(alloc: Global, asked: &Tree) -> Result<Option<String>, AllocError> {
    if let Some(entries) = asked.list_at("entries") {
        return openings::told(alloc, entries);
    }
    let Some(most) = asked.number_at("most") else {
        return Ok(None);
    };
    let Ok(most) = u32::try_from(most.get()) else {
        return Ok(None);
    };
    if let Some(request) = asked.get("request") {
        batches::told(alloc, asked.list_at("before").unwrap_or(&[]), request, most)
    } else if let Some(input) = asked.text_at("input") {
        connections::told(alloc, input, most)
    } else {
        Ok(None)
    }
}

/// Requests and connections over a desk of two accounts, and what is written.
#[derive(Drop)]
struct DeskRows;

impl Trial for DeskRows {
    ghost use Rattle.std.specs.Prelude.{true};

    ghost knows = { λ _. true };

    fn other_than(
        &mut self,
        alloc: Global,
        _table: &str,
        row: &Row,
    ) -> Result<Option<String>, AllocError> {
        let (Some(asked), Some(answer)) = (
            tree_in(alloc, row.asked.as_str())?,
            unrolled(alloc, row.answer.as_str())?,
        ) else {
            return Ok(Some(String::from_str(alloc, NOT_READ)?));
        };
        unless_answered(alloc, came(alloc, &asked)?, answer.as_str())
    }
}

fn main(rt: HostRuntime) -> io::Result<()> {
    try_rows(&rt, &mut DeskRows)
}
