//! What the reply to a set tells of creates (RFC 8620 section 5.3).
ghost use Rattle.std.specs.Prelude.{◌≡◌, ◌∷◌, [], IfOk, length, map, option_map};
ghost use Rattle.cal_model.specs.declared.outcome.Outcome.TheVariants.{Accepted};
ghost use Rattle.cal_model.specs.SetReply.{created_member, is_value, members_beyond, members_stored, object_or_null};
ghost use Rattle.cal_model.specs.Operations.{created_id};
ghost use Rattle.cal_model.specs.Sets.{of_each};
ghost use Rattle.spec_json.specs.ObjectKeys.{HasOrderedKeys};
ghost use Rattle.spec_json.specs.Parts.{members_in};
ghost use Rattle.spec_json.specs.TreeData.{data_of, pair_of};

use crate::parts::object_or_null;
use cal_model::outcome::Outcome;
use spec_history::entry::Change;
use spec_json::text::Text;
use spec_json::tree::{Member, Tree, TreeObject};
use std::alloc::{AllocError, Global};
use time_text::object_id_text;

/// The creation ids of the creates that were accepted, each with the id that the object got.
pub(crate) fn new_ids(
    alloc: Global,
    creates: &[Member],
    outcomes: &[Outcome],
) -> Result<Vec<(Text, Text)>, AllocError>
    requires { length creates.now ≡ length outcomes.now }
    ensures { IfOk result (λ v. v.items ≡ of_each created_id (map pair_of creates.now) outcomes.now) }
{
    let mut ids = Vec::with_capacity(alloc, creates.len())?;
    for (i, create) in creates.iter().enumerate() {
        match &outcomes[i] {
            Outcome::Accepted(change) => {
                let id = object_id_text(alloc, change.kind, change.id)?;
                ids.push((create.key.copy()?, id))?;
            }
            Outcome::Refused(_) => {}
        }
    }
    Ok(ids)
}

/// What is told of the creates that were accepted.
pub(crate) fn created(
    alloc: Global,
    creates: &[Member],
    outcomes: &[Outcome],
) -> Result<Tree, AllocError>
    requires { length creates.now ≡ length outcomes.now }
    ensures { IfOk result (λ t. data_of t ≡ object_or_null (of_each created_member (map pair_of creates.now) outcomes.now)) }
{
    object_or_null(alloc, created_members(alloc, creates, outcomes)?)
}

fn created_members(
    alloc: Global,
    creates: &[Member],
    outcomes: &[Outcome],
) -> Result<Vec<Member>, AllocError>
    requires { length creates.now ≡ length outcomes.now }
    ensures { IfOk result (λ v. map pair_of v.items ≡ of_each created_member (map pair_of creates.now) outcomes.now) }
{
    let mut members = Vec::with_capacity(alloc, creates.len())?;
    for (i, create) in creates.iter().enumerate() {
        match &outcomes[i] {
            Outcome::Accepted(change) => members.push(created_member(alloc, create, change)?)?,
            Outcome::Refused(_) => {}
        }
    }
    Ok(members)
}

#[tactic(auto, using(property_table::proofs::TableLemmas::rises_filter))]
fn created_member(alloc: Global, create: &Member, change: &Change) -> Result<Member, AllocError>
    ensures { IfOk result (λ m. pair_of m ∷ [] ≡ created_member (pair_of create.now) (Accepted change.now)) }
{
    let key = create.key.copy()?;
    let members = members_beyond(alloc, &create.value, stored_members(change))?;
    Ok(Member {
        key,
        value: Tree::Object(TreeObject::new(members)),
    })
}

// Copies of the stored members that the client's object lacks or has with another value.
#[tactic(auto, using(object_outcomes::proofs::MemberLemmas::field_is))]
fn members_beyond(
    alloc: Global,
    client: &Tree,
    stored: &[Member],
) -> Result<Vec<Member>, AllocError>
    ensures { IfOk result (λ v. map pair_of v.items ≡ members_beyond (members_in (data_of client.now)) (map pair_of stored.now)) }
{
    let mut beyond = Vec::with_capacity(alloc, stored.len())?;
    for member in stored {
        if !is_value(&member.value, client.get(member.key.as_str())) {
            let key = member.key.copy()?;
            let value = member.value.copy()?;
            beyond.push(Member { key, value })?;
        }
    }
    Ok(beyond)
}

fn is_value(value: &Tree, other: Option<&Tree>) -> bool
    ensures { result ≡ is_value (data_of value.now) (option_map (λ t. data_of t.now) other.entry) }
{
    match other {
        Some(other) => other.same(value),
        None => false,
    }
}

/// The members of the object that a change puts, and none of a removal. Takes no memory.
pub(crate) fn stored_members(change: &Change) -> &[Member]
    ensures value { map pair_of result.now ≡ members_stored change.now }
    ensures ordered { HasOrderedKeys (members_stored change.now) }
{
    match &change.object {
        Some(object) => object.members_in(),
        None => &[],
    }
}
