//! Objects of members.
ghost use Rattle.std.specs.Prelude.{◌≡◌, [], IfOk, OnOk, map};
ghost use Rattle.spec_json.specs.Edit.{put_all, with_pair};
ghost use Rattle.spec_json.specs.TreeData.{data_of, pair_of};
ghost use Rattle.object_outcomes.specs.Entries.{pair_in};

use spec_json::text::Text;
use spec_json::tree::{Member, Tree, TreeObject};
use std::alloc::{AllocError, Global};
use std::collections::BTreeMap;

/// An object of these members, which may stand in any order. Of two with one key the later counts.
///
/// Takes memory for the list of members, and for a copy of each key where they don't stand in order.
pub fn object_of(alloc: Global, members: Vec<Member>) -> Result<TreeObject, AllocError>
    ensures { IfOk result (λ o. o ≡ put_all (map pair_of members.items) []) }
{
    if are_in_order(&members) {
        one_by_one(alloc, members)
    } else {
        through_map(alloc, members)
    }
}

// Whether each key is above the one before it.
fn are_in_order(members: &[Member]) -> bool {
    members.is_sorted_by(|a, b| a.key.as_str() < b.key.as_str())
}

// Each goes behind those before it, where they stand in order.
#[tactic(auto, using(crate::proofs::MemberLemmas::put_member_push))]
fn one_by_one(alloc: Global, members: Vec<Member>) -> Result<TreeObject, AllocError>
    ensures { IfOk result (λ o. o ≡ put_all (map pair_of members.items) []) }
{
    let mut object = TreeObject::new(Vec::with_capacity(alloc, members.len())?);
    for member in members {
        object.put(member.key, member.value)?;
    }
    Ok(object)
}

// In any order: no member moves those behind it.
#[tactic(auto, using(spec_json::proofs::MergeLemmas::rises_with_all))]
fn through_map(alloc: Global, members: Vec<Member>) -> Result<TreeObject, AllocError>
    ensures { IfOk result (λ o. o ≡ put_all (map pair_of members.items) []) }
{
    let by_key = by_key(alloc, members)?;
    Ok(TreeObject::new(members_of(alloc, by_key)?))
}

#[tactic(auto, using(crate::proofs::MemberLemmas::put_member_push))]
fn by_key(alloc: Global, members: Vec<Member>) -> Result<BTreeMap<String, Tree>, AllocError>
    ensures { IfOk result (λ m. map pair_in m.entries ≡ put_all (map pair_of members.items) []) }
{
    let mut by_key = BTreeMap::new(alloc);
    for member in members {
        put(alloc, &mut by_key, member)?;
    }
    Ok(by_key)
}

#[tactic(auto, using(crate::proofs::MemberLemmas::inserted_pair))]
fn put(alloc: Global, by_key: &mut BTreeMap<String, Tree>, member: Member) -> Result<(), AllocError>
    ensures { OnOk result (map pair_in by_key.new.entries ≡ with_pair member.key (data_of member.value) (map pair_in by_key.old.entries)) }
{
    let key = String::from_str(alloc, member.key.as_str())?;
    by_key.insert(key, member.value)?;
    Ok(())
}

fn members_of(alloc: Global, by_key: BTreeMap<String, Tree>) -> Result<Vec<Member>, AllocError>
    ensures { IfOk result (λ v. map pair_of v.items ≡ map pair_in by_key.entries) }
{
    let mut members = Vec::with_capacity(alloc, by_key.len())?;
    for (key, value) in by_key {
        let key = Text::from_string(key)?;
        members.push(Member { key, value })?;
    }
    Ok(members)
}
