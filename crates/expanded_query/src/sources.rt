//! The events of an account whose occurrences are results.
ghost use Rattle.std.specs.Prelude.{◌≡◌, ◌++◌, IfOk, OnOk, flat_map};
ghost use Rattle.account_store.specs.Store.{entries};
ghost use Rattle.expanded_query.specs.Founds.{given_by};
ghost use Rattle.expanded_query.specs.Sights.{all_given, filter_window, given_among};
ghost use Rattle.spec_history.specs.History.{changes_of};
ghost use Rattle.spec_json.specs.Parts.{some_of};

use crate::sight::OccurrenceSight;
use crate::source::Source;
use event_store::StoredEvents;
use spec_history::entry::Kind;
use std::alloc::{AllocError, Global};

/// The live events whose occurrences are results where they overlap the window, in order of creation. Takes memory for the list.
pub(crate) fn sources<'a>(
    alloc: Global,
    events: &StoredEvents<'a>,
    sight: &OccurrenceSight<'_>,
) -> Result<Vec<Source<'a>>, AllocError>
    requires { sight.now.zones.now ≡ events.now.zones.now }
    ensures { IfOk result (λ v. flat_map (given_by (filter_window sight.now)) v.items ≡ all_given sight.now (changes_of (entries events.now.store.now))) }
{
    let numbers = events.store.live_ids(alloc, Kind::Event)?;
    sources_among(alloc, events, sight, &numbers)
}

// Those of these events.
fn sources_among<'a>(
    alloc: Global,
    events: &StoredEvents<'a>,
    sight: &OccurrenceSight<'_>,
    numbers: &[u64],
) -> Result<Vec<Source<'a>>, AllocError>
    requires { sight.now.zones.now ≡ events.now.zones.now }
    ensures { IfOk result (λ v. flat_map (given_by (filter_window sight.now)) v.items ≡ given_among sight.now (changes_of (entries events.now.store.now)) numbers.now) }
{
    let mut sources = Vec::new(alloc);
    for number in numbers {
        if let Some(event) = events.event(*number) {
            push_some(&mut sources, sight.source(alloc, *number, &event)?)?;
        }
    }
    Ok(sources)
}

// Puts an event at the end, where there is one.
fn push_some<'a>(list: &mut Vec<Source<'a>>, source: Option<Source<'a>>) -> Result<(), AllocError>
    ensures { OnOk result (list.new.items ≡ list.old.items ++ some_of source.entry) }
{
    if let Some(source) = source {
        list.push(source)?;
    }
    Ok(())
}
