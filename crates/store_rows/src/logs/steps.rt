//! Rows of logs.
ghost use Rattle.std.specs.Prelude.{◌≡◌, ◌≤◌, ◌^◌, length, true};
ghost use Rattle.object_log.specs.ObjectLog.{first, puts};
ghost use Rattle.object_log.specs.Puts.{may_come};

use crate::logs::texts::{ids_text, object_text, page_text};
use crate::logs::words::{number, words_of};
use object_log::{ObjectLog, Put};
use std::alloc::{AllocError, Global};

/// The most bytes of an object, and one more than the changes of a log.
const MOST: u64 = 1 << 40;

/// What a log tells after steps that are parted by `;` and end with `?` and a question; `refused` where a step isn't of the next id or of one that has an object.
///
/// A step is `put ID OBJECT`, with how many bytes of the object count behind it where these aren't its own, or `remove ID`, and a question `get ID`, `get_at ID STATE`, `live`, `touched STATE STATE`,
/// `changes STATE MAXIMUM`, where the maximum may be `none`, `retained STATE`, `count` or `created`.
pub fn shown(alloc: Global, row: &str) -> Result<Option<String>, AllocError> {
    let Some((steps, question)) = row.split_once('?') else {
        return Ok(None);
    };
    let mut log = ObjectLog::new(alloc);
    for step in steps.split(';') {
        let words = words_of(alloc, step)?;
        if words.is_empty() {
            continue;
        }
        let Some(put) = put_of(alloc, &words)? else {
            return Ok(None);
        };
        if !is_made(&mut log, put)? {
            return Ok(Some(String::from_str(alloc, "refused")?));
        }
    }
    answer(alloc, &log, question)
}

/// Makes a change, where it is of the next id or of one that has an object. Takes memory for it.
pub fn is_made<T: Drop>(log: &mut ObjectLog<T>, put: Put<T>) -> Result<bool, AllocError> {
    log.reserve(1)?;
    if log.count() >= MOST || put.size > MOST || !may_come(log, &put) {
        return Ok(false);
    }
    log.put(put);
    log.compact();
    Ok(true)
}

fn may_come<T: Drop>(log: &ObjectLog<T>, put: &Put<T>) -> bool
    ensures { result ≡ may_come (puts log.now) put.now }
{
    let is_known = log.get(put.id).is_some();
    let is_new = put.id > 0 && put.id - 1 == log.created();
    is_new || is_known
}

fn put_of(alloc: Global, words: &[&str]) -> Result<Option<Put<String>>, AllocError> {
    match words {
        [act, id, object] if *act == "put" => put_by(alloc, id, object, object.len() as u64),
        [act, id, object, size] if *act == "put" => match number(size) {
            Some(size) => put_by(alloc, id, object, size),
            None => Ok(None),
        },
        [act, id] if *act == "remove" => Ok(number(id).map(|id| Put {
            id,
            object: None,
            size: 0,
        })),
        _ => Ok(None),
    }
}

fn put_by(
    alloc: Global,
    id: &str,
    object: &str,
    size: u64,
) -> Result<Option<Put<String>>, AllocError> {
    match number(id) {
        Some(id) => Ok(Some(Put {
            id,
            object: Some(String::from_str(alloc, object)?),
            size,
        })),
        None => Ok(None),
    }
}

fn answer(
    alloc: Global,
    log: &ObjectLog<String>,
    question: &str,
) -> Result<Option<String>, AllocError> {
    let words = words_of(alloc, question)?;
    match words.as_slice() {
        [asks] => of_log(alloc, log, asks),
        [asks, number_word] => of_one(alloc, log, asks, number_word),
        [asks, one, other] => of_two(alloc, log, asks, one, other),
        _ => Ok(None),
    }
}

fn of_log(
    alloc: Global,
    log: &ObjectLog<String>,
    asks: &str,
) -> Result<Option<String>, AllocError> {
    match asks {
        "live" => Ok(Some(ids_text(alloc, &log.live_ids(alloc)?)?)),
        "count" => Ok(Some(format!(in alloc; "{}", log.count())?)),
        "created" => Ok(Some(format!(in alloc; "{}", log.created())?)),
        _ => Ok(None),
    }
}

fn of_one(
    alloc: Global,
    log: &ObjectLog<String>,
    asks: &str,
    word: &str,
) -> Result<Option<String>, AllocError> {
    let Some(n) = number(word) else {
        return Ok(None);
    };
    match asks {
        "get" => Ok(Some(object_text(alloc, log.get(n))?)),
        "retained" => Ok(Some(format!(in alloc; "{}", log.retained(n))?)),
        _ => Ok(None),
    }
}

fn of_two(
    alloc: Global,
    log: &ObjectLog<String>,
    asks: &str,
    one: &str,
    other: &str,
) -> Result<Option<String>, AllocError> {
    if asks == "changes" {
        return changes_text(alloc, log, one, other);
    }
    let (Some(one), Some(other)) = (number(one), number(other)) else {
        return Ok(None);
    };
    match asks {
        "get_at" => object_at_text(alloc, log, one, other),
        "touched" => touched_text(alloc, log, one, other),
        _ => Ok(None),
    }
}

fn changes_text(
    alloc: Global,
    log: &ObjectLog<String>,
    since: &str,
    max: &str,
) -> Result<Option<String>, AllocError> {
    let Some(since) = number(since) else {
        return Ok(None);
    };
    if max != "none" && number(max).is_none() {
        return Ok(None);
    }
    Ok(Some(page_text(alloc, log.changes(since, number(max)))?))
}

fn object_at_text(
    alloc: Global,
    log: &ObjectLog<String>,
    id: u64,
    state: u64,
) -> Result<Option<String>, AllocError> {
    if log.retained(state) {
        Ok(Some(object_text(alloc, log.get_at(id, state))?))
    } else {
        Ok(Some(String::from_str(alloc, "not retained")?))
    }
}

fn touched_text(
    alloc: Global,
    log: &ObjectLog<String>,
    since: u64,
    until: u64,
) -> Result<Option<String>, AllocError> {
    if log.retained(since) && since <= until && until <= log.count() {
        let ids = log.touched_between(alloc, since as usize, until as usize)?;
        Ok(Some(ids_text(alloc, &ids)?))
    } else {
        Ok(Some(String::from_str(alloc, "not retained")?))
    }
}
