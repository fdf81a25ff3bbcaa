//! Tries what reads events and what filters them on the rows of tables.
#![tactic(auto)]

ghost use Rattle.std.specs.Prelude.{◌≡◌, ◌||◌, IfOk, IsNone, bytes_eq, codes, false};

mod events;
mod filters;
mod time_zones;

use row_table::answers::text_of;
use row_table::line::tree_in;
use row_table::row::Row;
use row_table::trial::{Trial, try_rows, unless_unrolled};
use spec_json::tree::Tree;
use std::alloc::{AllocError, Global};
use std::io;
use zone_table::Zones;

/// The tables of events and filters.
#[derive(Drop)]
struct EventRows {
    /// The time zones that events may name.
    zones: Zones,
}

impl Trial for EventRows {
    ghost use Rattle.std.specs.Prelude.{◌||◌, bytes_eq, codes};

    ghost knows = { λ name. bytes_eq name (codes "events") || bytes_eq name (codes "filters") };

    fn other_than(
        &mut self,
        alloc: Global,
        table: &str,
        row: &Row,
    ) -> Result<Option<String>, AllocError> {
        let came = match came(alloc, &self.zones, table, row.asked.as_str())? {
            Some(came) => Some(text_of(alloc, &came)?),
            None => None,
        };
        unless_unrolled(alloc, came, row)
    }
}

/// What comes of a question: of the value behind a word that says what is asked of it, or of a value alone. None where it can't be read.
fn came(alloc: Global, zones: &Zones, table: &str, asked: &str) -> Result<Option<Tree>, AllocError>
    ensures { (bytes_eq table.now (codes "events") || bytes_eq table.now (codes "filters")) ≡ false → IfOk result (λ came. IsNone came) }
{
    let (question, value) = parts_of(asked);
    let Some(value) = tree_in(alloc, value)? else {
        return Ok(None);
    };
    match table {
        "events" => events::came(alloc, zones, question, value),
        "filters" => filters::came(alloc, zones, question, value),
        _ => Ok(None),
    }
}

/// The word that begins a line, empty where it begins with none, and the rest.
fn parts_of(line: &str) -> (&str, &str) {
    match line.split_once(' ') {
        Some((word, rest)) if is_question(word) => (word, rest),
        _ => ("", line),
    }
}

fn is_question(word: &str) -> bool {
    events::QUESTIONS.contains(&word) || filters::QUESTIONS.contains(&word)
}

fn main(rt: HostRuntime) -> io::Result<()> {
    let zones = time_zones::zones(rt.alloc())?;
    try_rows(&rt, &mut EventRows { zones })
}
