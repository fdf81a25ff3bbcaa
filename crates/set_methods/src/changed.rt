//! What the reply to a set tells of updates and destroys that were accepted (RFC 8620 section 5.3).
ghost use Rattle.std.specs.Prelude.{◌≡◌, IfOk, codes, filter, length, map};
ghost use Rattle.std.specs.Str.{bytes_eq};
ghost use Rattle.cal_model.specs.SetReply.{destroyed_item, list_or_null, news_of, object_or_null, updated_member};
ghost use Rattle.cal_model.specs.Sets.{of_each};
ghost use Rattle.spec_json.specs.Data.{members_of, object};
ghost use Rattle.spec_json.specs.ObjectKeys.{HasOrderedKeys};
ghost use Rattle.spec_json.specs.TreeData.{data_of, pair_of};

use crate::created::stored_members;
use crate::named_id::NamedId;
use crate::parts::{list_or_null, object_or_null};
use cal_model::outcome::Outcome;
use spec_history::entry::{Change, Kind};
use spec_json::tree::{Member, Tree, TreeObject};
use std::alloc::{AllocError, Global};
use time_text::object_id_text;

/// What is told of the updates that were accepted: what was changed that the client doesn't know.
pub(crate) fn updated(
    alloc: Global,
    updates: &[Member],
    outcomes: &[Outcome],
) -> Result<Tree, AllocError>
    requires { length updates.now ≡ length outcomes.now }
    ensures { IfOk result (λ t. data_of t ≡ object_or_null (of_each updated_member (map pair_of updates.now) outcomes.now)) }
{
    object_or_null(alloc, updated_members(alloc, updates, outcomes)?)
}

/// The ids of the objects that were destroyed.
pub(crate) fn destroyed(
    alloc: Global,
    named: &[NamedId<'_>],
    outcomes: &[Outcome],
) -> Result<Tree, AllocError>
    requires { length named.now ≡ length outcomes.now }
    ensures { IfOk result (λ t. data_of t ≡ list_or_null (of_each destroyed_item named.now outcomes.now)) }
{
    Ok(list_or_null(destroyed_ids(alloc, named, outcomes)?))
}

fn updated_members(
    alloc: Global,
    updates: &[Member],
    outcomes: &[Outcome],
) -> Result<Vec<Member>, AllocError>
    requires { length updates.now ≡ length outcomes.now }
    ensures { IfOk result (λ v. map pair_of v.items ≡ of_each updated_member (map pair_of updates.now) outcomes.now) }
{
    let mut members = Vec::with_capacity(alloc, updates.len())?;
    for (i, _update) in updates.iter().enumerate() {
        match &outcomes[i] {
            Outcome::Accepted(change) => {
                let key = object_id_text(alloc, change.kind, change.id)?;
                let value = news_of(alloc, change)?;
                members.push(Member { key, value })?;
            }
            Outcome::Refused(_) => {}
        }
    }
    Ok(members)
}

fn destroyed_ids(
    alloc: Global,
    named: &[NamedId<'_>],
    outcomes: &[Outcome],
) -> Result<Vec<Tree>, AllocError>
    requires { length named.now ≡ length outcomes.now }
    ensures { IfOk result (λ v. map data_of v.items ≡ of_each destroyed_item named.now outcomes.now) }
{
    let mut ids = Vec::with_capacity(alloc, named.len())?;
    for (i, _named) in named.iter().enumerate() {
        match &outcomes[i] {
            Outcome::Accepted(change) => {
                let id = object_id_text(alloc, change.kind, change.id)?;
                ids.push(Tree::Text(id))?;
            }
            Outcome::Refused(_) => {}
        }
    }
    Ok(ids)
}

// What an update changed that the client doesn't know: of an event, when it was updated.
fn news_of(alloc: Global, change: &Change) -> Result<Tree, AllocError>
    ensures { IfOk result (λ t. data_of t ≡ news_of change.now.kind change.now) }
{
    match change.kind {
        Kind::Calendar => Ok(Tree::Null),
        Kind::Event => update_news(alloc, stored_members(change)),
    }
}

#[tactic(auto, using(property_table::proofs::TableLemmas::rises_filter))]
fn update_news(alloc: Global, stored: &[Member]) -> Result<Tree, AllocError>
    requires { HasOrderedKeys (map pair_of stored.now) }
    ensures { IfOk result (λ t. data_of t ≡ object (members_of (filter (λ p. bytes_eq p.0 (codes "updated")) (map pair_of stored.now)))) }
{
    Ok(Tree::Object(TreeObject::new(moments_updated(alloc, stored)?)))
}

fn moments_updated(alloc: Global, stored: &[Member]) -> Result<Vec<Member>, AllocError>
    ensures { IfOk result (λ v. map pair_of v.items ≡ filter (λ p. bytes_eq p.0 (codes "updated")) (map pair_of stored.now)) }
{
    let mut moments = Vec::new(alloc);
    for member in stored {
        if member.key.as_str() == "updated" {
            let key = member.key.copy()?;
            let value = member.value.copy()?;
            moments.push(Member { key, value })?;
        }
    }
    Ok(moments)
}
