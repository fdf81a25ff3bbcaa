//! Single occurrences of an event.
ghost use Rattle.std.specs.Prelude.{◌≡◌, IfOk, OnOk, codes, false, option_and_then, option_map, true, unwrap_or};
ghost use Rattle.spec_json.specs.Data.{lookup, text};
ghost use Rattle.spec_json.specs.Edit.{with_pair};
ghost use Rattle.spec_json.specs.Parts.{as_object, members_in};
ghost use Rattle.spec_json.specs.TreeData.{data_of};
ghost use Rattle.spec_recurrence.specs.Overrides.{few_members, is_excluded, occurrence_in, overrides_of};
ghost use Rattle.spec_recurrence.specs.Recurrence.{has_occurrence_at, is_given_by_rules, is_there, occurrence_at, occurrence_members, occurrence_seen, override_at, seen_as, with_ids};
ghost use Rattle.spec_time.specs.Walls.{is_in_years};

use crate::dates::{day_of, second_of};
use crate::ids::occurrence_id_text;
use crate::rules::{is_day, rules_of_event};
use overrides::occurrence::occurrence_tree;
use single_event::parts::start_of;
use single_event::recurrence::has_recurrence;
use spec_history::entry::Kind;
use spec_json::text::Text;
use spec_json::tree::{Tree, TreeObject};
use spec_recurrence::limits::MAX_OVERRIDES;
use spec_time::wall::Wall;
use std::alloc::{AllocError, Global};
use time_text::{local_text, object_id_text};

/// The occurrence with a recurrence id in the years 0 to 9999, as a client sees it: with its synthetic id, its recurrence id
/// and the id of its event, which is that of this number.
///
/// None where the event has neither rules nor overrides, or no such occurrence. Takes memory for the rules and for the
/// occurrence.
pub fn occurrence(
    alloc: Global,
    number: u64,
    event: &Tree,
    rid: Wall,
) -> Result<Option<TreeObject>, AllocError>
    requires { is_in_years rid ≡ true }
    ensures { IfOk result (λ o. o ≡ occurrence_members number rid (data_of event.now)) }
{
    let ids = OccurrenceIds {
        id: occurrence_id_text(alloc, number, rid)?,
        key: local_text(alloc, rid)?,
        event: object_id_text(alloc, Kind::Event, number)?,
    };
    occurrence_at(alloc, &ids, event, rid)
}

// The texts that name an occurrence.
#[derive(Drop)]
struct OccurrenceIds {
    // Its synthetic id.
    id: Text,
    // Its recurrence id.
    key: Text,
    // The id of its event.
    event: Text,
}

fn occurrence_at(
    alloc: Global,
    ids: &OccurrenceIds,
    event: &Tree,
    rid: Wall,
) -> Result<Option<TreeObject>, AllocError>
    requires { is_in_years rid ≡ true }
    ensures { IfOk result (λ o. o ≡ occurrence_at ids.now.id ids.now.key ids.now.event (data_of event.now) rid) }
{
    if has_occurrence_at(alloc, &ids.key, event, rid)? {
        occurrence_seen(alloc, ids, event)
    } else {
        Ok(None)
    }
}

fn has_occurrence_at(alloc: Global, key: &Text, event: &Tree, rid: Wall) -> Result<bool, AllocError>
    requires { is_in_years rid ≡ true }
    ensures { IfOk result (λ b. b ≡ has_occurrence_at key.now (data_of event.now) rid) }
{
    if !has_recurrence(event) {
        return Ok(false);
    }
    is_there(alloc, override_at(event, key), event, rid)
}

fn is_there(
    alloc: Global,
    patch: Option<&TreeObject>,
    event: &Tree,
    rid: Wall,
) -> Result<bool, AllocError>
    requires { is_in_years rid ≡ true }
    ensures { IfOk result (λ b. b ≡ is_there (option_map (λ p. p.now) patch.entry) (is_given_by_rules (data_of event.now) rid)) }
{
    match patch {
        Some(patch) => Ok(!is_taken_out(patch)),
        None => is_given_by_rules(alloc, event, rid),
    }
}

// Whether a patch takes its occurrence out.
fn is_taken_out(patch: &TreeObject) -> bool
    ensures { result ≡ unwrap_or (is_excluded (lookup (codes "excluded") patch.now)) false }
{
    matches!(patch.get("excluded"), Some(Tree::Truth(true)))
}

fn is_given_by_rules(alloc: Global, event: &Tree, rid: Wall) -> Result<bool, AllocError>
    requires { is_in_years rid ≡ true }
    ensures { IfOk result (λ b. b ≡ is_given_by_rules (data_of event.now) rid) }
{
    let start = start_of(event);
    if second_of(rid) != second_of(start) {
        return Ok(false);
    }
    let rules = rules_of_event(alloc, event)?;
    Ok(is_day(rules.items(), start, day_of(rid)))
}

/// The override of the occurrence whose recurrence id is the LocalDateTime of this key. Takes no memory.
pub fn override_at<'a>(event: &'a Tree, key: &Text) -> Option<&'a TreeObject>
    ensures { option_map (λ patch. patch.now) result ≡ override_at key.now (data_of event.now) }
{
    match event.get("recurrenceOverrides") {
        Some(overrides) => override_in(overrides, key),
        None => None,
    }
}

#[tactic(auto, using(spec_json::specs::Data::pairs_back))]
fn override_in<'a>(overrides: &'a Tree, key: &Text) -> Option<&'a TreeObject>
    ensures { option_map (λ patch. patch.now) result ≡ option_and_then as_object (option_and_then (lookup key.now) (overrides_of (data_of overrides.now))) }
{
    match overrides {
        Tree::Object(object) => override_among(object, key),
        _ => None,
    }
}

fn override_among<'a>(overrides: &'a TreeObject, key: &Text) -> Option<&'a TreeObject>
    ensures { option_map (λ patch. patch.now) result ≡ option_and_then as_object (option_and_then (lookup key.now) (few_members overrides.now)) }
{
    if overrides.members().len() <= MAX_OVERRIDES {
        overrides.object_at(key.as_str())
    } else {
        None
    }
}

// The object of an occurrence that there is.
fn occurrence_seen(
    alloc: Global,
    ids: &OccurrenceIds,
    event: &Tree,
) -> Result<Option<TreeObject>, AllocError>
    ensures { IfOk result (λ o. o ≡ occurrence_seen ids.now.id ids.now.key ids.now.event (data_of event.now)) }
{
    match override_at(event, &ids.key) {
        Some(patch) => seen_as(alloc, ids, event, patch),
        None => seen_as(alloc, ids, event, &TreeObject::new(Vec::new(alloc))),
    }
}

fn seen_as(
    alloc: Global,
    ids: &OccurrenceIds,
    event: &Tree,
    patch: &TreeObject,
) -> Result<Option<TreeObject>, AllocError>
    ensures { IfOk result (λ o. o ≡ seen_as ids.now.id ids.now.key ids.now.event (occurrence_in (members_in (data_of event.now)) ids.now.key patch.now)) }
{
    match occurrence_tree(alloc, event, &ids.key, patch)? {
        Some(tree) => Ok(Some(with_ids(alloc, ids, tree.into_object_or_empty(alloc))?)),
        None => Ok(None),
    }
}

fn with_ids(
    alloc: Global,
    ids: &OccurrenceIds,
    mut object: TreeObject,
) -> Result<TreeObject, AllocError>
    ensures { IfOk result (λ o. o ≡ with_ids ids.now.id ids.now.key ids.now.event object) }
{
    put_text(alloc, &mut object, "id", &ids.id)?;
    put_text(alloc, &mut object, "recurrenceId", &ids.key)?;
    put_text(alloc, &mut object, "baseEventId", &ids.event)?;
    Ok(object)
}

fn put_text(
    alloc: Global,
    object: &mut TreeObject,
    name: &str,
    value: &Text,
) -> Result<(), AllocError>
    ensures { OnOk result (object.new ≡ with_pair name.now (text value.now) object.old) }
{
    object.put(Text::from_str(alloc, name)?, Tree::Text(value.copy()?))
}
