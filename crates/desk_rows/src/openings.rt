//! Accounts that open at entries.

use account_core::account::Account;
use account_opening::OpeningError;
use journal_keeper::loaded::whole_history;
use spec_books::book::Book;
use spec_history::entry::{Change, Entry, Kind};
use spec_json::text::Text;
use spec_json::tree::Tree;
use spec_time::moment::Moment;
use std::alloc::{AllocError, Global};
use std::sync::Arc;
use time_text::object_id_text;
use zone_table::Zones;

/// 2024-01-01T00:00:00Z.
const MOMENT: i64 = 1_704_067_200;

/// Whether an account opens at these entries, and with how many, or an object for which it doesn't; none where an entry can't be read.
pub fn told(alloc: Global, rows: &[Tree]) -> Result<Option<String>, AllocError> {
    let mut entries = Vec::new(alloc);
    for row in rows {
        if !is_pushed(alloc, row, &mut entries)? {
            return Ok(None);
        }
    }
    match Zones::read(alloc, &[]) {
        Ok(zones) => Ok(Some(opened(alloc, zones, entries)?)),
        Err(_) => Ok(None),
    }
}

fn opened(alloc: Global, zones: Zones, entries: Vec<Entry>) -> Result<String, AllocError> {
    let id = Text::from_str(alloc, "A1")?;
    let loaded = whole_history(alloc, entries);
    match Account::open_at(alloc, id, Arc::new(alloc, zones)?, 0, loaded) {
        Ok(account) => Ok(format!(in alloc; "opens at {}", account.count())?),
        Err(OpeningError::BadObject { kind, id }) => {
            let id = object_id_text(alloc, kind, id)?;
            let id = id.as_str();
            Ok(format!(in alloc; "not for {id}")?)
        }
        Err(OpeningError::NoMemory) => Err(AllocError),
    }
}

// Puts the entries of a row behind others, if it has any: `times` entries, else one, of `kind` and `id`, with an `object` unless it is removed.
fn is_pushed(alloc: Global, row: &Tree, entries: &mut Vec<Entry>) -> Result<bool, AllocError> {
    let (Some(kind), Some(id)) = (kind_at(row), row.number_at("id")) else {
        return Ok(false);
    };
    let Ok(id) = u64::try_from(id.get()) else {
        return Ok(false);
    };
    let times = match row.number_at("times") {
        Some(times) => times.get().unsigned_abs(),
        None => 1,
    };
    for _ in 0..times {
        entries.push(entry(kind, id, row.get("object"))?)?;
    }
    Ok(true)
}

fn kind_at(row: &Tree) -> Option<Kind> {
    match row.text_at("kind")?.as_str() {
        "calendar" => Some(Kind::Calendar),
        "event" => Some(Kind::Event),
        _ => None,
    }
}

fn entry(kind: Kind, id: u64, object: Option<&Tree>) -> Result<Entry, AllocError> {
    let object = match object {
        Some(object) => Some(object.copy()?),
        None => None,
    };
    Ok(Entry {
        author: 7,
        turn: 9,
        part: u32::MAX,
        moment: Moment::clamped(MOMENT),
        change: Change { kind, id, object },
    })
}
