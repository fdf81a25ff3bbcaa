//! Reads the event on the first line of its input and the occurrences that the synthetic ids on the other lines name, and writes what came of it; given a number of rounds, the nanoseconds of the fastest.
#![tactic(auto)]

use event_model::ids::read_occurrence_id;
use event_model::names::bad_event_names;
use event_model::occurrence::occurrence;
use json_edge::read::read_tree;
use spec_json::tree::{Tree, TreeObject};
use std::alloc::{AllocError, Global};
use std::io::{BufRead, BufReader};
use std::time::Instant;
use std::{env, io};
use time_text::is_in_years;
use zone_table::{ZoneError, Zones};

fn read_lines(rt: &HostRuntime) -> io::Result<Vec<String>> {
    let alloc = rt.alloc();
    let mut lines = Vec::new(alloc);
    for line in BufReader::new(alloc, rt.reader())?.lines(alloc) {
        lines.push(line?)?;
    }
    Ok(lines)
}

fn no_zones(alloc: Global) -> Result<Zones, AllocError> {
    match Zones::read(alloc, &[]) {
        Ok(zones) => Ok(zones),
        Err(ZoneError::BadZone { .. } | ZoneError::NoMemory) => Err(AllocError),
    }
}

/// The occurrence that a synthetic id names, none where it names none of the event.
fn named(alloc: Global, event: &Tree, id: &str) -> Result<Option<TreeObject>, AllocError> {
    match read_occurrence_id(id.as_bytes()) {
        Some((number, rid)) if is_in_years(rid) => occurrence(alloc, number, event, rid),
        _ => Ok(None),
    }
}

/// How many of these synthetic ids name an occurrence.
fn count_named(alloc: Global, event: &Tree, ids: &[String]) -> Result<u64, AllocError> {
    let mut count: u64 = 0;
    for id in ids {
        if named(alloc, event, id.as_str())?.is_some() {
            count = count.saturating_add(1);
        }
    }
    Ok(count)
}

/// Writes the names of all that is bad in an event, and how many of the ids name an occurrence of it.
fn tell(rt: &HostRuntime, zones: &Zones, event: &Tree, ids: &[String]) -> io::Result<()> {
    for name in &bad_event_names(rt.alloc(), event, zones)? {
        println!(rt; "bad: {}", name.as_str())?;
    }
    let count = count_named(rt.alloc(), event, ids)?;
    println!(rt; "{count} occurrences")
}

/// Writes the least times of so many rounds, in nanoseconds: of the JSON, of what is bad in the event, and of all occurrences.
fn time(
    rt: &HostRuntime,
    zones: &Zones,
    text: &str,
    ids: &[String],
    rounds: u32,
) -> io::Result<()> {
    let alloc = rt.alloc();
    let (mut reading, mut testing, mut finding) = (u128::MAX, u128::MAX, u128::MAX);
    for _ in 0..rounds {
        let start = Instant::now(rt)?;
        let Ok(event) = read_tree(alloc, text.as_bytes()) else {
            return Ok(());
        };
        reading = reading.min(start.elapsed(rt)?.as_nanos());
        let start = Instant::now(rt)?;
        let _names = bad_event_names(alloc, &event, zones)?;
        testing = testing.min(start.elapsed(rt)?.as_nanos());
        let start = Instant::now(rt)?;
        let _count = count_named(alloc, &event, ids)?;
        finding = finding.min(start.elapsed(rt)?.as_nanos());
    }
    println!(rt; "{reading} {testing} {finding}")
}

fn main(rt: HostRuntime) -> io::Result<()> {
    let zones = no_zones(rt.alloc())?;
    let lines = read_lines(&rt)?;
    let [text, ids @ ..] = lines.as_slice() else {
        return println!(rt; "an event, and synthetic ids, each on a line");
    };
    match env::args(&rt)?.nth(1) {
        Some(rounds) => time(
            &rt,
            &zones,
            text.as_str(),
            ids,
            rounds.parse::<u32>().unwrap_or(1),
        ),
        None => match read_tree(rt.alloc(), text.as_str().as_bytes()) {
            Ok(event) => tell(&rt, &zones, &event, ids),
            Err(_) => println!(rt; "no JSON of whole numbers"),
        },
    }
}
