//! Random steps, after which a log is compared with the plain programs.
use crate::logs::plain::{
    Step, lists_between, live_at, object_at, page_end, sizes_from, touched_between,
};
use crate::logs::steps::is_made;
use crate::logs::texts::{page_text, push_ids};
use crate::logs::words::{number, words_of};
use object_log::{ObjectLog, Put};
use std::alloc::{AllocError, Global};

/// A sequence of numbers that depends on its seed alone.
#[derive(Drop)]
struct Numbers {
    last: u64,
}

impl Numbers {
    /// A number from 0 below `end`.
    fn below(&mut self, end: u64) -> u64 {
        self.last = self
            .last
            .wrapping_mul(6_364_136_223_846_793_005)
            .wrapping_add(1_442_695_040_888_963_407);
        (self.last >> 33).checked_rem(end).unwrap_or(0)
    }
}

/// The first difference from the plain programs after random steps, `same` where there is none.
///
/// The words are a seed, a number of steps and a number of ids.
pub fn differences(alloc: Global, row: &str) -> Result<Option<String>, AllocError> {
    let words = words_of(alloc, row)?;
    let [seed, count, ids] = words.as_slice() else {
        return Ok(None);
    };
    let (Some(seed), Some(count), Some(ids)) = (number(seed), number(count), number(ids)) else {
        return Ok(None);
    };
    let steps = random_steps(alloc, seed, count, ids)?;
    let Some(log) = log_of(alloc, &steps)? else {
        return Ok(Some(String::from_str(alloc, "refused")?));
    };
    if let Some(other) = other_objects(alloc, &log, &steps)? {
        return Ok(Some(other));
    }
    match other_changes(alloc, &log, &steps, ids)? {
        Some(other) => Ok(Some(other)),
        None => Ok(Some(String::from_str(alloc, "same")?)),
    }
}

/// Steps of which each makes the next state. One in three removes, and of a number of none that has an object the next object is created, or removed at once.
fn random_steps(alloc: Global, seed: u64, count: u64, ids: u64) -> Result<Vec<Step>, AllocError> {
    let mut numbers = Numbers { last: seed };
    let mut steps = Vec::new(alloc);
    let mut created: u64 = 0;
    for state in 0..count {
        let chosen = numbers.below(ids).saturating_add(1);
        let puts = numbers.below(3) > 0;
        let id = if object_at(&steps, chosen, state).is_some() {
            chosen
        } else {
            created = created.saturating_add(1);
            created
        };
        steps.push(Step {
            id,
            state: state + 1,
            object: if puts { Some(state) } else { None },
        })?;
    }
    Ok(steps)
}

fn log_of(alloc: Global, steps: &[Step]) -> Result<Option<ObjectLog<u64>>, AllocError> {
    let mut log = ObjectLog::new(alloc);
    for step in steps {
        let put = Put {
            id: step.id,
            object: step.object,
            size: 1,
        };
        if !is_made(&mut log, put)? {
            return Ok(None);
        }
    }
    Ok(Some(log))
}

/// The first object that differs at a state, or list of ids.
fn other_objects(
    alloc: Global,
    log: &ObjectLog<u64>,
    steps: &[Step],
) -> Result<Option<String>, AllocError> {
    let last = steps.len() as u64;
    if log.live_ids(alloc)?.as_slice() != live_at(alloc, steps, last)?.as_slice() {
        return Ok(Some(String::from_str(alloc, "live")?));
    }
    for state in 0..last + 1 {
        if !log.retained(state) {
            return Ok(Some(format!(in alloc; "retained {state}")?));
        }
        for id in 0..log.created().saturating_add(2) {
            if log.get_at(id, state).copied() != object_at(steps, id, state) {
                return Ok(Some(format!(in alloc; "get_at {id} {state}")?));
            }
        }
    }
    Ok(None)
}

/// The first page or list of touched ids from a state that differs.
fn other_changes(
    alloc: Global,
    log: &ObjectLog<u64>,
    steps: &[Step],
    ids: u64,
) -> Result<Option<String>, AllocError> {
    let last = steps.len() as u64;
    for since in 0..last + 1 {
        if log.retained(since) && since <= log.count() {
            let came = log.touched_between(alloc, since as usize, log.count() as usize)?;
            if came.as_slice() != touched_between(alloc, steps, since, last)?.as_slice() {
                return Ok(Some(format!(in alloc; "touched {since}")?));
            }
        }
        if let Some(other) = other_pages(alloc, log, steps, since, ids)? {
            return Ok(Some(other));
        }
    }
    Ok(None)
}

/// The page that the plain program makes from a state, as text, where the sizes are those from that state on.
fn plain_page(
    alloc: Global,
    steps: &[Step],
    sizes: &[u64],
    since: u64,
    max: Option<u64>,
) -> Result<String, AllocError> {
    let until = page_end(sizes, since, max);
    let lists = lists_between(alloc, steps, since, until)?;
    let mut text = format!(in alloc; "until {until}")?;
    push_ids(&mut text, " created", &lists.created)?;
    push_ids(&mut text, " updated", &lists.updated)?;
    push_ids(&mut text, " destroyed", &lists.destroyed)?;
    Ok(text)
}

/// The first page from a state that differs, with each maximum up to the number of ids and with none.
fn other_pages(
    alloc: Global,
    log: &ObjectLog<u64>,
    steps: &[Step],
    since: u64,
    ids: u64,
) -> Result<Option<String>, AllocError> {
    let sizes = sizes_from(alloc, steps, since)?;
    for most in 0..ids.saturating_add(1) {
        let max = if most < ids { Some(most) } else { None };
        let came = page_text(alloc, log.changes(since, max))?;
        if came.as_str() != plain_page(alloc, steps, &sizes, since, max)?.as_str() {
            return Ok(Some(format!(in alloc; "from {since} with {most}: {came}")?));
        }
    }
    Ok(None)
}
