//! How ids stand between two states, as a page grows from one state to the next.
ghost use Rattle.std.specs.Prelude.{◌≡◌, ◌≤◌, ◌==◌, IfOk, OnOk, if◌then◌else◌, length, nat_eq, is_some, option_map, unwrap_or, Some, ℕ};
ghost use Rattle.std.specs.HashMap.{get};
ghost use Rattle.object_log.specs.ObjectLog.{first, puts};
ghost use Rattle.object_log.specs.Pasts.{mention_past};
ghost use Rattle.object_log.specs.Puts.{said};
ghost use Rattle.object_log.specs.Standing.{AreStandings, after, begun, growth_of, is_listed, is_new, is_changed, is_gone};

use crate::log::ObjectLog;
use crate::window::Past;
use std::alloc::{AllocError, Global};
use std::collections::HashMap;

/// How an id stands between the state that a page begins from and one that it may end at.
#[derive(Clone, Copy)]
pub(crate) struct Standing {
    /// It was live at the first.
    pub was_live: bool,
    /// It is live at the second.
    pub is_live: bool,
    /// It is mentioned between the two.
    pub is_touched: bool,
}

/// The standings of ids.
pub(crate) type Standings = HashMap<u64, Standing>;

impl Standing {
    /// The page lists the id, in one of its lists.
    pub(crate) fn is_listed(self) -> bool
        ensures { result ≡ is_listed self }
    {
        self.is_touched && (self.was_live || self.is_live)
    }

    /// The page lists the id as created.
    pub(crate) fn is_new(self) -> bool
        ensures { result ≡ is_new self }
    {
        self.is_live && !self.was_live
    }

    /// The page lists the id as updated.
    pub(crate) fn is_changed(self) -> bool
        ensures { result ≡ is_changed self }
    {
        self.was_live && self.is_live && self.is_touched
    }

    /// The page lists the id as destroyed.
    pub(crate) fn is_gone(self) -> bool
        ensures { result ≡ is_gone self }
    {
        self.was_live && !self.is_live
    }
}

/// The standings of the ids that are mentioned after a state, for a page that ends where it begins.
///
/// Time and memory grow with the changes after that state alone.
pub(crate) fn standings_from<T: Drop>(
    alloc: Global,
    log: &ObjectLog<T>,
    since: usize,
) -> Result<Standings, AllocError>
    requires known { first log.now ≤ since }
    requires reached { since ≤ length (puts log.now) }
    ensures { IfOk result (AreStandings (said (puts log.now)) since since) }
{
    let mut standings = HashMap::new(alloc);
    for state in since..log.count() as usize {
        begin(&mut standings, log.past(state))?;
    }
    Ok(standings)
}

// Takes up the id of a change as it stood before, where no earlier change behind the state named it.
fn begin<T>(standings: &mut Standings, past: &Past<T>) -> Result<(), AllocError>
    ensures { OnOk result ((id : ℕ) → get nat_eq standings.new id ≡ if past.now.id == id then Some (unwrap_or (get nat_eq standings.old id) (begun (is_some past.now.before))) else get nat_eq standings.old id) }
{
    if !standings.contains_key(&past.id) {
        let begun = Standing {
            was_live: past.before.is_some(),
            is_live: past.before.is_some(),
            is_touched: false,
        };
        standings.insert(past.id, begun)?;
    }
    Ok(())
}

/// How a page changes by one more mention.
#[derive(Clone, Copy)]
pub(crate) struct Growth {
    /// The page listed the id.
    pub was_listed: bool,
    /// The page lists the id.
    pub is_listed: bool,
}

/// Brings the standings to the state after one more change.
pub(crate) fn advance<T>(standings: &mut Standings, past: &Past<T>) -> Result<Growth, AllocError>
    ensures standings { OnOk result ((id : ℕ) → get nat_eq standings.new id ≡ option_map (λ s. if past.now.id == id then after (mention_past past.now) s else s) (get nat_eq standings.old id)) }
    ensures growth { IfOk result (λ growth. growth ≡ growth_of (mention_past past.now) (get nat_eq standings.old past.now.id)) }
{
    match standings.get(&past.id).copied() {
        None => Ok(Growth {
            was_listed: false,
            is_listed: false,
        }),
        Some(old) => {
            let new = Standing {
                was_live: old.was_live,
                is_live: past.puts,
                is_touched: true,
            };
            standings.insert(past.id, new)?;
            Ok(Growth {
                was_listed: old.is_listed(),
                is_listed: new.is_listed(),
            })
        }
    }
}
