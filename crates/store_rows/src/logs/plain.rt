//! The plain programs: what logs tell, by going over all steps for each question.
use std::alloc::{AllocError, Global};

/// A put of an object that has a number, or a removal.
#[derive(Clone, Copy)]
pub struct Step {
    pub id: u64,
    pub state: u64,
    pub object: Option<u64>,
}

/// The object of an id at a state: that of the last step of the state and before that names it.
pub fn object_at(steps: &[Step], id: u64, state: u64) -> Option<u64> {
    let mut object = None;
    for step in steps {
        if step.id == id && step.state <= state {
            object = step.object;
        }
    }
    object
}

/// The different ids, in the order of the steps that first name them.
pub fn ids_of(alloc: Global, steps: &[Step]) -> Result<Vec<u64>, AllocError> {
    let mut ids: Vec<u64> = Vec::new(alloc);
    for step in steps {
        if !ids.contains(&step.id) {
            ids.push(step.id)?;
        }
    }
    Ok(ids)
}

/// Those of the ids that have an object at a state.
pub fn live_at(alloc: Global, steps: &[Step], state: u64) -> Result<Vec<u64>, AllocError> {
    let mut live = Vec::new(alloc);
    for id in &ids_of(alloc, steps)? {
        if object_at(steps, *id, state).is_some() {
            live.push(*id)?;
        }
    }
    Ok(live)
}

/// The lists of a page, each in order of creation.
#[derive(Drop)]
pub struct Lists {
    pub created: Vec<u64>,
    pub updated: Vec<u64>,
    pub destroyed: Vec<u64>,
}

impl Lists {
    /// How many ids they have together.
    pub fn len(&self) -> u64 {
        (self.created.len() as u64)
            .saturating_add(self.updated.len() as u64)
            .saturating_add(self.destroyed.len() as u64)
    }
}

fn is_touched(steps: &[Step], id: u64, since: u64, until: u64) -> bool {
    for step in steps {
        if step.id == id && since < step.state && step.state <= until {
            return true;
        }
    }
    false
}

/// What was created, updated and destroyed between two states (RFC 8620 section 5.2), where each step makes the next state.
pub fn lists_between(
    alloc: Global,
    steps: &[Step],
    since: u64,
    until: u64,
) -> Result<Lists, AllocError> {
    let mut lists = Lists {
        created: Vec::new(alloc),
        updated: Vec::new(alloc),
        destroyed: Vec::new(alloc),
    };
    for id in &ids_of(alloc, steps)? {
        let was_live = object_at(steps, *id, since).is_some();
        let is_live = object_at(steps, *id, until).is_some();
        match (was_live, is_live) {
            (false, true) => lists.created.push(*id)?,
            (true, false) => lists.destroyed.push(*id)?,
            (true, true) if is_touched(steps, *id, since, until) => lists.updated.push(*id)?,
            _ => {}
        }
    }
    Ok(lists)
}

/// How many ids the lists from a state have together, up to it and up to each later state.
pub fn sizes_from(alloc: Global, steps: &[Step], since: u64) -> Result<Vec<u64>, AllocError> {
    let mut sizes = Vec::new(alloc);
    for until in since..steps.len() as u64 + 1 {
        sizes.push(lists_between(alloc, steps, since, until)?.len())?;
    }
    Ok(sizes)
}

/// The greatest state whose size is at most the maximum, where the sizes are those from a state on.
pub fn page_end(sizes: &[u64], since: u64, max: Option<u64>) -> u64 {
    let mut end = since;
    for (more, size) in sizes.iter().enumerate() {
        if *size <= max.unwrap_or(u64::MAX) {
            end = since.saturating_add(more as u64);
        }
    }
    end
}

/// The different ids that steps name behind a state and up to another, in the order of creation.
pub fn touched_between(
    alloc: Global,
    steps: &[Step],
    since: u64,
    until: u64,
) -> Result<Vec<u64>, AllocError> {
    let mut touched = Vec::new(alloc);
    for id in &ids_of(alloc, steps)? {
        if is_touched(steps, *id, since, until) {
            touched.push(*id)?;
        }
    }
    Ok(touched)
}
