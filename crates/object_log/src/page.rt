//! Makes a page of changes.
ghost use Rattle.std.specs.Prelude.{◌≡◌, ◌≤◌, ◌<◌, ◌+◌, ◌^◌, ◌++◌, ◌∷◌, [], None, Some, IfOk, OnOk, if◌then◌else◌, length, nat_eq};
ghost use Rattle.std.specs.HashMap.{get};
ghost use Rattle.spec_history.specs.Pages.{created, destroyed, page_end, updated};
ghost use Rattle.object_log.specs.ObjectLog.{first, puts};
ghost use Rattle.object_log.specs.Puts.{said};
ghost use Rattle.object_log.specs.Standing.{AreStandings, is_changed, is_gone, is_new, listed_by, one_if};

use crate::log::ObjectLog;
use crate::standing::{Growth, Standings, advance, standings_from};
use spec_history::ids::Ids;
use std::alloc::{AllocError, Global};

/// What was created, updated and destroyed between two states of a kind (RFC 8620 section 5.2).
///
/// The numbers stand in order of creation, and none in two lists.
#[derive(Drop)]
pub struct Page {
    /// The state at which the page ends.
    pub until: u64,
    /// The objects that are live there, and weren't.
    pub created: Ids,
    /// The objects that were live and are, and were changed.
    pub updated: Ids,
    /// The objects that were live, and aren't there.
    pub destroyed: Ids,
}

/// Makes the page from the state `since` that ends as far as at most `most` ids allow.
pub(crate) fn page_from<T: Drop>(
    alloc: Global,
    log: &ObjectLog<T>,
    since: usize,
    most: Option<u64>,
) -> Result<Page, AllocError>
    requires known { first log.now ≤ since }
    requires reached { since ≤ length (puts log.now) }
    ensures until { IfOk result (λ page. page.until ≡ page_end (said (puts log.now)) since most) }
    ensures created { IfOk result (λ page. page.created ≡ created (said (puts log.now)) since page.until) }
    ensures updated { IfOk result (λ page. page.updated ≡ updated (said (puts log.now)) since page.until) }
    ensures destroyed { IfOk result (λ page. page.destroyed ≡ destroyed (said (puts log.now)) since page.until) }
{
    let until = end_from(alloc, log, since, most)?;
    let lists = lists_between(alloc, log, since, until)?;
    Ok(Page {
        until: until as u64,
        created: Ids::new(lists.created),
        updated: Ids::new(lists.updated),
        destroyed: Ids::new(lists.destroyed),
    })
}

fn end_from<T: Drop>(
    alloc: Global,
    log: &ObjectLog<T>,
    since: usize,
    most: Option<u64>,
) -> Result<usize, AllocError>
    requires known { first log.now ≤ since }
    requires reached { since ≤ length (puts log.now) }
    ensures value { IfOk result (λ end. end ≡ page_end (said (puts log.now)) since most) }
    ensures after { IfOk result (λ end. since ≤ end) }
    ensures within { IfOk result (λ end. end ≤ length (puts log.now)) }
{
    match most {
        None => Ok(log.count() as usize),
        Some(most) => longest_from(alloc, log, since, most),
    }
}

// The greatest state at which the page lists at most `most` ids.
fn longest_from<T: Drop>(
    alloc: Global,
    log: &ObjectLog<T>,
    since: usize,
    most: u64,
) -> Result<usize, AllocError>
    requires known { first log.now ≤ since }
    requires reached { since ≤ length (puts log.now) }
    ensures value { IfOk result (λ end. end ≡ page_end (said (puts log.now)) since (Some most)) }
    ensures after { IfOk result (λ end. since ≤ end) }
    ensures within { IfOk result (λ end. end ≤ length (puts log.now)) }
{
    let mut standings = standings_from(alloc, log, since)?;
    let mut size = 0;
    let mut end = since;
    for state in since..log.count() as usize {
        let growth = advance(&mut standings, log.past(state))?;
        size = resized(size, growth);
        if size <= most {
            end = state + 1;
        }
    }
    Ok(end)
}

fn resized(size: u64, growth: Growth) -> u64
    requires fits { size < 2 ^ 63 }
    requires listed { one_if growth.was_listed ≤ size + one_if growth.is_listed }
    ensures { result + one_if growth.was_listed ≡ size + one_if growth.is_listed }
{
    match (growth.was_listed, growth.is_listed) {
        (false, true) => size + 1,
        (true, false) => size - 1,
        _ => size,
    }
}

/// The ids of a page, each list in order of creation.
#[derive(Drop)]
struct Lists {
    created: Vec<u64>,
    updated: Vec<u64>,
    destroyed: Vec<u64>,
}

fn lists_between<T: Drop>(
    alloc: Global,
    log: &ObjectLog<T>,
    since: usize,
    until: usize,
) -> Result<Lists, AllocError>
    requires known { first log.now ≤ since }
    requires order { since ≤ until }
    requires end { until ≤ length (puts log.now) }
    ensures created { IfOk result (λ lists. lists.created.items ≡ created (said (puts log.now)) since until) }
    ensures updated { IfOk result (λ lists. lists.updated.items ≡ updated (said (puts log.now)) since until) }
    ensures destroyed { IfOk result (λ lists. lists.destroyed.items ≡ destroyed (said (puts log.now)) since until) }
{
    let standings = standings_between(alloc, log, since, until)?;
    let touched = log.touched_between(alloc, since, until)?;
    let mut lists = Lists {
        created: Vec::new(alloc),
        updated: Vec::new(alloc),
        destroyed: Vec::new(alloc),
    };
    for id in &touched {
        lists.add(&standings, *id)?;
    }
    Ok(lists)
}

fn standings_between<T: Drop>(
    alloc: Global,
    log: &ObjectLog<T>,
    since: usize,
    until: usize,
) -> Result<Standings, AllocError>
    requires known { first log.now ≤ since }
    requires order { since ≤ until }
    requires end { until ≤ length (puts log.now) }
    ensures { IfOk result (AreStandings (said (puts log.now)) since until) }
{
    let mut standings = standings_from(alloc, log, since)?;
    for state in since..until {
        advance(&mut standings, log.past(state))?;
    }
    Ok(standings)
}

impl Lists {
    // Puts the id into the list where it belongs, if there is one.
    fn add(&mut self, standings: &Standings, id: u64) -> Result<(), AllocError>
        ensures created { OnOk result (self.new.created.items ≡ self.old.created.items ++ listed_by is_new id (get nat_eq standings.now id)) }
        ensures updated { OnOk result (self.new.updated.items ≡ self.old.updated.items ++ listed_by is_changed id (get nat_eq standings.now id)) }
        ensures destroyed { OnOk result (self.new.destroyed.items ≡ self.old.destroyed.items ++ listed_by is_gone id (get nat_eq standings.now id)) }
    {
        match standings.get(&id).copied() {
            None => Ok(()),
            Some(standing) => {
                push_if(&mut self.created, id, standing.is_new())?;
                push_if(&mut self.updated, id, standing.is_changed())?;
                push_if(&mut self.destroyed, id, standing.is_gone())
            }
        }
    }
}

fn push_if(ids: &mut Vec<u64>, id: u64, belongs: bool) -> Result<(), AllocError>
    ensures { OnOk result (ids.new.items ≡ ids.old.items ++ (if belongs then id ∷ [] else [])) }
{
    if belongs {
        ids.push(id)?;
    }
    Ok(())
}
