//! Tries what reads and writes texts on the rows of tables: JSON, numbers of dates and of congruences, patches, messages of HTTP, streams of events, and the configuration of a
//! site. Given a number of rounds, it times one patch.
#![tactic(auto)]

ghost use Rattle.std.specs.Prelude.{◌≡◌, ◌||◌, IfOk, IsNone, bytes_eq, codes, false};

mod events;
mod json_texts;
mod messages;
mod numbers;
mod patches;
mod sites;

use patches::times;
use row_table::row::Row;
use row_table::trial::{Trial, try_rows, unless_unrolled};
use std::alloc::{AllocError, Global};
use std::{env, io};

/// The tables of texts.
#[derive(Drop)]
struct TextRows {
    /// How many calls that read messages ran out of memory.
    wants: u64,
}

impl Trial for TextRows {
    ghost use Rattle.std.specs.Prelude.{◌||◌, bytes_eq, codes};

    ghost knows = { λ name. bytes_eq name (codes "json") || bytes_eq name (codes "numbers") || bytes_eq name (codes "patches") || bytes_eq name (codes "messages") || bytes_eq name (codes "events") || bytes_eq name (codes "sites") };

    fn other_than(
        &mut self,
        alloc: Global,
        table: &str,
        row: &Row,
    ) -> Result<Option<String>, AllocError> {
        match table {
            "json" => json_texts::other_than(alloc, row),
            "messages" => messages::other_than(alloc, row, &mut self.wants),
            "sites" => sites::other_than(alloc, row),
            table => unless_unrolled(alloc, came(alloc, table, row.asked.as_str())?, row),
        }
    }
}

/// What comes of a question of dates and congruences, of patches, or of streams of events, none where it can't be read.
fn came(alloc: Global, table: &str, asked: &str) -> Result<Option<String>, AllocError>
    ensures { (bytes_eq table.now (codes "numbers") || bytes_eq table.now (codes "patches") || bytes_eq table.now (codes "events")) ≡ false → IfOk result (λ came. IsNone came) }
{
    match table {
        "numbers" => numbers::came(alloc, asked),
        "patches" => patches::came(alloc, asked),
        "events" => events::came(alloc, asked),
        _ => Ok(None),
    }
}

// A call that ran out of memory is made again, so that a table whose answers all came shows that nothing was lost. Ample memory ran out
// then, which is an error.
fn main(rt: HostRuntime) -> io::Result<()> {
    if let Some(rounds) = env::args(&rt)?.nth(1) {
        return times::tell(&rt, rounds.parse::<u32>().unwrap_or(1));
    }
    let mut trial = TextRows { wants: 0 };
    try_rows(&rt, &mut trial)?;
    if trial.wants > 0 {
        return Err(AllocError.into());
    }
    Ok(())
}
