//! Which calendars live events are in.
ghost use Rattle.std.specs.Prelude.{◌≡◌, ◌==◌, ◌||◌, IfOk, None, OnOk, if◌then◌else◌, option_map, ℕ};
ghost use Rattle.std.specs.BTreeSet.{contains};
ghost use Rattle.std.specs.List.{list_any};
ghost use Rattle.std.specs.Ordering.{nat_cmp};
ghost use Rattle.account_core.specs.Ledger.{changes, staged};
ghost use Rattle.account_core.specs.Uses.{AreInUse, has_staged_event, is_object_in_calendar};
ghost use Rattle.account_store.specs.Store.{entries};
ghost use Rattle.cal_model.specs.EventObject.{has_event};
ghost use Rattle.spec_history.specs.History.{changes_of, live_object};
ghost use Rattle.spec_history.specs.declared.entry.Kind.TheVariants.{Event as event_kind};

use crate::ledger::Ledger;
use account_store::Store;
use cal_model::view::AccountView;
use single_event::calendars::{calendars_of, names_calendar};
use spec_history::entry::{Change, Kind};
use spec_json::tree::Tree;
use std::alloc::{AllocError, Global};
use std::collections::BTreeSet;

/// The numbers of the calendars that live events are in. Takes memory for them, and time with the number of events.
#[tactic(auto, using(crate::proofs::LiveEvents::first_event))]
pub(crate) fn calendars_in_use(alloc: Global, store: &Store) -> Result<BTreeSet<u64>, AllocError>
    ensures { IfOk result (AreInUse (changes_of (entries store.now))) }
{
    let numbers = store.live_ids(alloc, Kind::Event)?;
    let mut in_use = BTreeSet::new(alloc);
    for number in &numbers {
        put_calendars_of(alloc, &mut in_use, store.object(Kind::Event, *number))?;
    }
    Ok(in_use)
}

// Puts the calendars of an event, where there is one, among these.
fn put_calendars_of(
    alloc: Global,
    in_use: &mut BTreeSet<u64>,
    event: Option<&Tree>,
) -> Result<(), AllocError>
    ensures { OnOk result ((n : ℕ) → contains nat_cmp in_use.new n
        ≡ (is_object_in_calendar n (option_map (λ t. t.now) event.entry) || contains nat_cmp in_use.old n)) }
{
    match event {
        Some(event) => put_all(in_use, &calendars_of(alloc, event)?),
        None => Ok(()),
    }
}

fn put_all(in_use: &mut BTreeSet<u64>, calendars: &[u64]) -> Result<(), AllocError>
    ensures { OnOk result ((n : ℕ) → contains nat_cmp in_use.new n ≡ (list_any (λ m. m == n) calendars.now || contains nat_cmp in_use.old n)) }
{
    for calendar in calendars {
        put(in_use, *calendar)?;
    }
    Ok(())
}

fn put(in_use: &mut BTreeSet<u64>, calendar: u64) -> Result<(), AllocError>
    ensures { OnOk result ((n : ℕ) → contains nat_cmp in_use.new n ≡ ((calendar == n) || contains nat_cmp in_use.old n)) }
{
    in_use.insert(calendar)?;
    Ok(())
}

/// These calendars, where the changes leave events as they are.
pub(crate) fn still_in_use(
    in_use: Option<BTreeSet<u64>>,
    changes: &[Change],
) -> Option<BTreeSet<u64>>
    ensures { result ≡ if has_staged_event changes.now then None else in_use }
{
    if has_staged_event(changes) {
        return None;
    }
    in_use
}

/// Whether a live event is in a calendar. Takes no memory, and time with the number of events where the calendars that they are in
/// weren't looked up before.
#[tactic(auto, using(crate::proofs::InUse::in_use_tells))]
pub(crate) fn has_event(ledger: &Ledger, calendar: u64) -> bool
    ensures { result ≡ has_event (changes ledger.now) calendar }
{
    let is_staged = has_staged_event(&ledger.staged);
    match &ledger.in_use {
        Some(in_use) if !is_staged => in_use.contains(&calendar),
        _ => is_any_in_calendar(ledger, is_staged, calendar),
    }
}

// Whether one of the events that were ever created is live and in a calendar.
fn is_any_in_calendar(ledger: &Ledger, is_staged: bool, calendar: u64) -> bool
    requires { is_staged ≡ has_staged_event (staged ledger.now) }
    ensures { result ≡ has_event (changes ledger.now) calendar }
{
    for before in 0..ledger.tally.events {
        if is_in_calendar(ledger, is_staged, before + 1, calendar) {
            return true;
        }
    }
    false
}

// Whether an event is live and in a calendar. `is_staged` says whether a change of an event is staged: where none is, the staged
// changes aren't gone over for each event.
fn is_in_calendar(ledger: &Ledger, is_staged: bool, number: u64, calendar: u64) -> bool
    requires { is_staged ≡ has_staged_event (staged ledger.now) }
    ensures { result ≡ is_object_in_calendar calendar (live_object (changes ledger.now) event_kind number) }
{
    match live_event(ledger, is_staged, number) {
        Some(event) => names_calendar(event, calendar),
        None => false,
    }
}

#[tactic(auto, using(crate::proofs::LiveEvents::live_before))]
fn live_event(ledger: &Ledger, is_staged: bool, number: u64) -> Option<&Tree>
    requires { is_staged ≡ has_staged_event (staged ledger.now) }
    ensures { option_map (λ t. t.now) result ≡ live_object (changes ledger.now) event_kind number }
{
    if is_staged {
        ledger.live(Kind::Event, number)
    } else {
        ledger.store.object(Kind::Event, number)
    }
}

fn has_staged_event(changes: &[Change]) -> bool
    ensures { result ≡ has_staged_event changes.now }
{
    changes.iter().any(|change| Kind::Event.is(change.kind))
}
