//! What a client gives of an event, with created ids in place of `#key` (RFC 8620 section 5.3).
ghost use Rattle.std.specs.Prelude.{◌≡◌, ◌++◌, IfOk, map, option_map};
ghost use Rattle.cal_model.specs.CreatedIds.{below_calendar_ids, resolved_calendar_ids, resolved_id, resolved_member_value, resolved_object, resolved_patch, resolved_pointer, resolved_value};
ghost use Rattle.spec_json.specs.Parts.{members_in};
ghost use Rattle.spec_json.specs.TreeData.{data_of, pair_of};

use crate::created_ids::CreatedIds;
use crate::given::copy_of_object;
use crate::objects::object_of;
use spec_history::entry::Kind;
use spec_json::text::Text;
use spec_json::tree::{Member, Tree, TreeObject};
use std::alloc::{AllocError, Global};

/// A copy of an object, in which `calendarIds` of an event has created ids in place of `#key`.
pub(crate) fn resolved_object(
    alloc: Global,
    kind: Kind,
    created: &CreatedIds,
    value: &Tree,
) -> Result<TreeObject, AllocError>
    ensures { IfOk result (λ o. o ≡ resolved_object created.now kind (members_in (data_of value.now))) }
{
    match kind {
        Kind::Calendar => copy_of_object(alloc, value),
        Kind::Event => object_of(alloc, resolved_members(alloc, created, value.members_in())?),
    }
}

/// A copy of a patch, in which an event's pointers into `calendarIds`, and its value, have created ids in place of `#key`.
pub(crate) fn resolved_patch(
    alloc: Global,
    kind: Kind,
    created: &CreatedIds,
    patch: &Tree,
) -> Result<TreeObject, AllocError>
    ensures { IfOk result (λ o. o ≡ resolved_patch created.now kind (members_in (data_of patch.now))) }
{
    match kind {
        Kind::Calendar => copy_of_object(alloc, patch),
        Kind::Event => object_of(
            alloc,
            resolved_pointers(alloc, created, patch.members_in())?,
        ),
    }
}

fn resolved_members(
    alloc: Global,
    created: &CreatedIds,
    members: &[Member],
) -> Result<Vec<Member>, AllocError>
    ensures { IfOk result (λ v. map pair_of v.items ≡ map (λ p. (p.0, resolved_member_value created.now p)) (map pair_of members.now)) }
{
    let mut resolved = Vec::with_capacity(alloc, members.len())?;
    for member in members {
        let key = member.key.copy()?;
        let value = member_value(alloc, created, member)?;
        resolved.push(Member { key, value })?;
    }
    Ok(resolved)
}

fn resolved_pointers(
    alloc: Global,
    created: &CreatedIds,
    members: &[Member],
) -> Result<Vec<Member>, AllocError>
    ensures { IfOk result (λ v. map pair_of v.items
        ≡ map (λ p. (resolved_pointer created.now p.0, resolved_member_value created.now p)) (map pair_of members.now)) }
{
    let mut resolved = Vec::with_capacity(alloc, members.len())?;
    for member in members {
        let key = pointer(alloc, created, &member.key)?;
        let value = member_value(alloc, created, member)?;
        resolved.push(Member { key, value })?;
    }
    Ok(resolved)
}

// A copy of a member's value.
fn member_value(alloc: Global, created: &CreatedIds, member: &Member) -> Result<Tree, AllocError>
    ensures { IfOk result (λ t. data_of t ≡ resolved_member_value created.now (pair_of member.now)) }
{
    if member.key.as_str() != "calendarIds" {
        return member.value.copy();
    }
    calendar_ids(alloc, created, &member.value)
}

// A copy of a value of `calendarIds`.
#[tactic(auto, using(spec_json::specs::Data::pairs_back))]
fn calendar_ids(alloc: Global, created: &CreatedIds, value: &Tree) -> Result<Tree, AllocError>
    ensures { IfOk result (λ t. data_of t ≡ resolved_value created.now (data_of value.now)) }
{
    match value {
        Tree::Object(ids) => Ok(Tree::Object(resolved_calendar_ids(alloc, created, ids)?)),
        other => other.copy(),
    }
}

fn resolved_calendar_ids(
    alloc: Global,
    created: &CreatedIds,
    ids: &TreeObject,
) -> Result<TreeObject, AllocError>
    ensures { IfOk result (λ o. o ≡ resolved_calendar_ids created.now ids.now) }
{
    object_of(alloc, resolved_keys(alloc, created, ids.members())?)
}

fn resolved_keys(
    alloc: Global,
    created: &CreatedIds,
    members: &[Member],
) -> Result<Vec<Member>, AllocError>
    ensures { IfOk result (λ v. map pair_of v.items ≡ map (λ p. (resolved_id created.now p.0, p.1)) (map pair_of members.now)) }
{
    let mut resolved = Vec::with_capacity(alloc, members.len())?;
    for member in members {
        let key = created.resolved(&member.key).copy()?;
        let value = member.value.copy()?;
        resolved.push(Member { key, value })?;
    }
    Ok(resolved)
}

// A pointer with a created id in place of `#key` behind `calendarIds/`.
fn pointer(alloc: Global, created: &CreatedIds, key: &Text) -> Result<Text, AllocError>
    ensures { IfOk result (λ t. t ≡ resolved_pointer created.now key.now) }
{
    match below_calendar_ids(key.as_str()) {
        Some(id) => joined(alloc, "calendarIds/", resolved(created, id)),
        None => key.copy(),
    }
}

// What stands behind `calendarIds/` in a pointer that begins with it.
fn below_calendar_ids(key: &str) -> Option<&str>
    ensures { option_map (λ t. t.now) result ≡ below_calendar_ids key.now }
{
    key.strip_prefix("calendarIds/")
}

fn joined(alloc: Global, first: &str, second: &str) -> Result<Text, AllocError>
    ensures { IfOk result (λ t. t ≡ first.now ++ second.now) }
{
    let mut text = String::from_str(alloc, first)?;
    text.push_str(second)?;
    Text::from_string(text)
}

fn resolved<'t>(created: &'t CreatedIds, id: &'t str) -> &'t str
    ensures { result.now ≡ resolved_id created.now id.now }
{
    match created.created(id) {
        Some(id) => id.as_str(),
        None => id,
    }
}
