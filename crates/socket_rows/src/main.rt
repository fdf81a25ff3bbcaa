//! Has sockets in memory served, and tells which come otherwise than the table has them.
#![tactic(auto)]

mod hosts;
mod links;

use row_table::line::{tree_in, unrolled};
use row_table::row::Row;
use row_table::trial::{NOT_READ, Trial, try_rows, unless_answered};
use spec_json::tree::Tree;
use std::alloc::{AllocError, Global};
use std::io;

/// What comes of a row, where it can be read: `words` are run over `sockets`, and a row without words is one socket.
fn came(alloc: Global, asked: &Tree) -> Result<Option<String>, AllocError> {
    match asked.text_at("words") {
        Some(words) => hosts::told(alloc, words.as_str(), asked),
        None => links::told(alloc, asked),
    }
}

/// Sockets, and what came of them.
#[derive(Drop)]
struct SocketRows;

impl Trial for SocketRows {
    ghost use Rattle.std.specs.Prelude.{true};

    ghost knows = { λ _. true };

    fn other_than(
        &mut self,
        alloc: Global,
        _table: &str,
        row: &Row,
    ) -> Result<Option<String>, AllocError> {
        let (Some(asked), Some(answer)) = (
            tree_in(alloc, row.asked.as_str())?,
            unrolled(alloc, row.answer.as_str())?,
        ) else {
            return Ok(Some(String::from_str(alloc, NOT_READ)?));
        };
        unless_answered(alloc, came(alloc, &asked)?, answer.as_str())
    }
}

fn main(rt: HostRuntime) -> io::Result<()> {
    try_rows(&rt, &mut SocketRows)
}
