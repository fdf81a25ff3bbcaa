//! Tries what orders and keeps objects on the rows of tables: results and changes of queries, and logs of objects. Given words, it times one
//! call of a log.
#![tactic(auto)]

mod logs;
mod orders;

use logs::times;
use row_table::row::Row;
use row_table::trial::{Trial, try_rows, unless_unrolled};
use std::alloc::{AllocError, Global};
use std::{env, io};

/// The tables of queries and of logs.
#[derive(Drop)]
struct StoreRows;

impl Trial for StoreRows {
    ghost use Rattle.std.specs.Prelude.{◌||◌, bytes_eq, codes};

    ghost knows = { λ name. bytes_eq name (codes "orders") || bytes_eq name (codes "logs") };

    fn other_than(
        &mut self,
        alloc: Global,
        table: &str,
        row: &Row,
    ) -> Result<Option<String>, AllocError> {
        match table {
            "logs" => logs::other_than(alloc, row),
            "orders" => unless_unrolled(alloc, orders::came(alloc, row.asked.as_str())?, row),
            _ => unless_unrolled(alloc, None, row),
        }
    }
}

fn main(rt: HostRuntime) -> io::Result<()> {
    let mut words = Vec::new(rt.alloc());
    for word in env::args(&rt)? {
        words.push(word)?;
    }
    if words.len() > 1 {
        times::tell(&rt, &words[1..])
    } else {
        try_rows(&rt, &mut StoreRows)
    }
}
