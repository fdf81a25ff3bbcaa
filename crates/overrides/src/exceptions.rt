//! What the overrides of an event come to.
ghost use Rattle.std.specs.Prelude.{◌≡◌, IfErr, IfOk, Some, codes, if◌then◌else◌, None, map, option_map};
ghost use Rattle.spec_events.specs.Events.{length_in};
ghost use Rattle.spec_events.specs.Values.{is_showing};
ghost use Rattle.spec_json.specs.Data.{lookup};
ghost use Rattle.spec_json.specs.Parts.{all_some, members_in};
ghost use Rattle.spec_json.specs.TreeData.{data_of, pair_of};
ghost use Rattle.spec_recurrence.specs.Overrides.{changed_at, changed_span, patch_changes, exception_at, exception_in, exception_of, exceptions_in, few_members, first_refused, is_excluded, overrides_in, overrides_of, recurrence_id_in, replaced_by, span_in, span_of, valid_span};
ghost use Rattle.overrides.specs.Alone.{IsTested};
ghost use Rattle.overrides.specs.Parts.{firsts_of};
ghost use Rattle.overrides.specs.Reports.{Reports, ReportsAmong};
ghost use Rattle.overrides.specs.declared.exceptions.OverrideError.TheVariants.{NoMemory};

use crate::alone::Alone;
use crate::fixed::has_fixed;
use crate::occurrence::{changed_at, patch_changes};
use crate::part::{are_needed, firsts_of, part_of};
use single_event::parts::{given_length, is_occupying, start_of};
use single_event::read::bad_event_names;
use spec_events::limits::{FIRST_START, LAST_START};
use spec_json::text::Text;
use spec_json::tree::{Member, Tree, TreeObject};
use spec_recurrence::limits::MAX_OVERRIDES;
use spec_series::exception::{Exception, Exceptions, Span};
use spec_time::length::Length;
use spec_time::wall::Wall;
use std::alloc::{AllocError, AllocFailed, Global};
use time_text::read_local;
use zone_table::Zones;

/// Why an event may not have its overrides.
#[derive(Drop)]
pub enum OverrideError {
    /// `recurrenceOverrides` isn't an object of at most 128 members.
    BadOverrides,
    /// There is an override that the event may not have.
    BadOverride {
        /// The key of the first one, in byte order.
        key: Text,
    },
    /// There was no memory.
    NoMemory,
}

impl From<AllocError> for OverrideError {
    ghost from_gives = { λ _ error. error ≡ NoMemory };

    fn from(_: AllocError) -> Self {
        OverrideError::NoMemory
    }
}

impl<T: Drop> From<AllocFailed<T>> for OverrideError {
    ghost from_gives = { λ _ error. error ≡ NoMemory };

    fn from(_: AllocFailed<T>) -> Self {
        OverrideError::NoMemory
    }
}

/// The exceptions that the overrides of an event come to, in byte order of their keys (RFC 8984 section 4.3.5).
///
/// `BadOverride` names the first override whose key isn't a LocalDateTime in the years 1 to 9998, whose value isn't an
/// object, whose `excluded` is neither true, false nor null, or which doesn't exclude its occurrence and touches what is
/// fixed, has a key that fails, or makes an object that isn't a valid event. Takes memory for a copy of the event, where it
/// has overrides.
pub fn exceptions(alloc: Global, event: &Tree, zones: &Zones) -> Result<Exceptions, OverrideError>
    ensures value { IfOk result (λ xs. exceptions_in zones.now (data_of event.now) ≡ Some xs) }
    ensures err { IfErr result (λ error. Reports error zones.now (data_of event.now)) }
{
    let Some(overrides) = overrides_in(event) else {
        return Err(OverrideError::BadOverrides);
    };
    if overrides.is_empty() {
        return Ok(Exceptions::none());
    }
    let alone = Alone::of(alloc, event, zones)?;
    let exceptions = exceptions_among(alloc, &alone, overrides, zones)?;
    Ok(Exceptions::new(alloc, exceptions)?)
}

fn overrides_in(event: &Tree) -> Option<&[Member]>
    ensures { option_map (λ members. map pair_of members.now) result ≡ overrides_in (data_of event.now) }
{
    match event.get("recurrenceOverrides") {
        Some(overrides) => overrides_of(overrides),
        None => Some(&[]),
    }
}

#[tactic(auto, using(spec_json::specs::Data::pairs_back))]
fn overrides_of(overrides: &Tree) -> Option<&[Member]>
    ensures { option_map (λ members. map pair_of members.now) result ≡ overrides_of (data_of overrides.now) }
{
    match overrides {
        Tree::Null => Some(&[]),
        Tree::Object(object) => few_members(object.members()),
        _ => None,
    }
}

fn few_members(members: &[Member]) -> Option<&[Member]>
    ensures { option_map (λ members. map pair_of members.now) result ≡ few_members (map pair_of members.now) }
{
    if members.len() <= MAX_OVERRIDES {
        Some(members)
    } else {
        None
    }
}

#[tactic(auto, using(spec_json::proofs::Appending::push_option))]
fn exceptions_among(
    alloc: Global,
    alone: &Alone,
    overrides: &[Member],
    zones: &Zones,
) -> Result<Vec<Exception>, OverrideError>
    requires { IsTested alone.now zones.now }
    ensures value { IfOk result (λ v. all_some (exception_in zones.now (members_in (data_of alone.now.event))) (map pair_of overrides.now) ≡ Some v.items) }
    ensures err { IfErr result (λ error. ReportsAmong error (first_refused zones.now (members_in (data_of alone.now.event)) (map pair_of overrides.now))) }
{
    let mut exceptions = Vec::with_capacity(alloc, overrides.len())?;
    for member in overrides {
        match exception_in(alloc, alone, member, zones)? {
            Some(Exception { rid, replaced }) => exceptions.push(Exception { rid, replaced })?,
            None => {
                return Err(OverrideError::BadOverride {
                    key: member.key.copy()?,
                });
            }
        }
    }
    Ok(exceptions)
}

#[tactic(auto, unfolding(spec_recurrence::specs::Overrides::exception_in))]
fn exception_in(
    alloc: Global,
    alone: &Alone,
    member: &Member,
    zones: &Zones,
) -> Result<Option<Exception>, AllocError>
    requires { IsTested alone.now zones.now }
    ensures { IfOk result (λ x. x ≡ exception_in zones.now (members_in (data_of alone.now.event)) (pair_of member.now)) }
{
    match member.value.as_object() {
        Some(patch) => exception_of(alloc, alone, &member.key, patch, zones),
        None => Ok(None),
    }
}

fn exception_of(
    alloc: Global,
    alone: &Alone,
    key: &Text,
    patch: &TreeObject,
    zones: &Zones,
) -> Result<Option<Exception>, AllocError>
    requires { IsTested alone.now zones.now }
    ensures { IfOk result (λ x. x ≡ exception_of zones.now (members_in (data_of alone.now.event)) key.now patch.now) }
{
    match recurrence_id_in(key.as_str().as_bytes()) {
        Some(rid) => exception_at(alloc, alone, key, patch, zones, rid),
        None => Ok(None),
    }
}

fn exception_at(
    alloc: Global,
    alone: &Alone,
    key: &Text,
    patch: &TreeObject,
    zones: &Zones,
    rid: Wall,
) -> Result<Option<Exception>, AllocError>
    requires { IsTested alone.now zones.now }
    ensures { IfOk result (λ x. x ≡ exception_at zones.now key.now patch.now (members_in (data_of alone.now.event)) rid) }
{
    match replaced_by(alloc, alone, key, patch, zones)? {
        Some(replaced) => Ok(Some(Exception { rid, replaced })),
        None => Ok(None),
    }
}

fn recurrence_id_in(key: &[u8]) -> Option<Wall>
    ensures { result ≡ recurrence_id_in key.now }
{
    match read_local(key) {
        Some(wall) => if_showing(wall),
        None => None,
    }
}

fn if_showing(wall: Wall) -> Option<Wall>
    ensures { result ≡ if is_showing wall then Some wall else None }
{
    if FIRST_START <= wall.seconds() && wall.seconds() <= LAST_START {
        Some(wall)
    } else {
        None
    }
}

// What stands in the place of the occurrence, which is nothing where it is excluded.
fn replaced_by(
    alloc: Global,
    alone: &Alone,
    key: &Text,
    patch: &TreeObject,
    zones: &Zones,
) -> Result<Option<Option<Span>>, AllocError>
    requires { IsTested alone.now zones.now }
    ensures { IfOk result (λ r. r ≡ replaced_by zones.now key.now patch.now (members_in (data_of alone.now.event)) (is_excluded (lookup (codes "excluded") patch.now))) }
{
    match patch.get("excluded") {
        Some(Tree::Truth(true)) => Ok(Some(None)),
        None | Some(Tree::Truth(false)) | Some(Tree::Null) => {
            replacement(alloc, alone, key, patch, zones)
        }
        Some(_) => Ok(None),
    }
}

fn replacement(
    alloc: Global,
    alone: &Alone,
    key: &Text,
    patch: &TreeObject,
    zones: &Zones,
) -> Result<Option<Option<Span>>, AllocError>
    requires { IsTested alone.now zones.now }
    ensures { IfOk result (λ r. r ≡ option_map Some (changed_span zones.now key.now (patch_changes patch.now) (members_in (data_of alone.now.event)))) }
{
    match patched_span(alloc, alone, key, patch, zones)? {
        Some(span) => Ok(Some(Some(span))),
        None => Ok(None),
    }
}

// Most patches have no `excluded`, and change all that they name: such a one isn't copied.
#[tactic(auto, using(crate::proofs::OverrideLemmas::no_exclusion))]
fn patched_span(
    alloc: Global,
    alone: &Alone,
    key: &Text,
    patch: &TreeObject,
    zones: &Zones,
) -> Result<Option<Span>, AllocError>
    requires { IsTested alone.now zones.now }
    ensures { IfOk result (λ s. s ≡ changed_span zones.now key.now (patch_changes patch.now) (members_in (data_of alone.now.event))) }
{
    match patch.get("excluded") {
        None => changed_span(alloc, alone, key, patch, zones),
        Some(_) => changed_span(alloc, alone, key, &patch_changes(patch)?, zones),
    }
}

#[tactic(auto, using(crate::proofs::OverrideLemmas::fixed_among_firsts))]
fn changed_span(
    alloc: Global,
    alone: &Alone,
    key: &Text,
    changes: &TreeObject,
    zones: &Zones,
) -> Result<Option<Span>, AllocError>
    requires { IsTested alone.now zones.now }
    ensures { IfOk result (λ s. s ≡ changed_span zones.now key.now changes.now (members_in (data_of alone.now.event))) }
{
    let firsts = firsts_of(alloc, changes.members())?;
    if has_fixed(&firsts) {
        return Ok(None);
    }
    span_of(alloc, alone, key, changes, &firsts, zones)
}

// No more of the event is copied than the changes and the tests of dates look at: a valid event may be large.
#[tactic(auto, using(crate::proofs::OccurrenceLemmas::fails_beyond, crate::proofs::OccurrenceLemmas::part_tells))]
fn span_of(
    alloc: Global,
    alone: &Alone,
    key: &Text,
    changes: &TreeObject,
    firsts: &[Text],
    zones: &Zones,
) -> Result<Option<Span>, AllocError>
    requires tested { IsTested alone.now zones.now }
    requires firsts { firsts.now ≡ firsts_of changes.now }
    ensures { IfOk result (λ s. s ≡ span_of zones.now (changed_at key.now changes.now (members_in (data_of alone.now.event)))) }
{
    let _ordered = alone.event.members_in();
    if !are_needed(firsts, &alone.bad) {
        return Ok(None);
    }
    let part = part_of(alloc, &alone.event, &alone.needed, firsts)?;
    match changed_at(alloc, key, changes, part)? {
        Some(tree) => valid_span(alloc, &tree, zones),
        None => Ok(None),
    }
}

fn valid_span(alloc: Global, tree: &Tree, zones: &Zones) -> Result<Option<Span>, AllocError>
    ensures { IfOk result (λ s. s ≡ valid_span zones.now (data_of tree.now)) }
{
    let bad = bad_event_names(alloc, tree, zones)?;
    if bad.is_empty() {
        Ok(Some(span_in(tree)))
    } else {
        Ok(None)
    }
}

fn span_in(tree: &Tree) -> Span
    ensures { result ≡ span_in (data_of tree.now) }
{
    Span {
        start: start_of(tree),
        length: length_in(tree),
        occupying: is_occupying(tree),
    }
}

fn length_in(tree: &Tree) -> Length
    ensures { result ≡ length_in (data_of tree.now) }
{
    match given_length(tree) {
        Some(length) => length,
        None => Length {
            days: 0,
            seconds: 0,
        },
    }
}
