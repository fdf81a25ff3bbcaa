//! Two objects put together.
ghost use Rattle.std.specs.Prelude.{◌≡◌, IfOk, map, option_map};
ghost use Rattle.spec_json.specs.Edit.{put_all};
ghost use Rattle.spec_json.specs.Merge.{TakesBelow, without_first};
ghost use Rattle.spec_json.specs.ObjectKeys.{HasOrderedKeys};
ghost use Rattle.spec_json.specs.TreeData.{pair_of};

use super::{Member, TreeObject};
use crate::text::Text;
use std::alloc::{AllocError, Global};
use std::collections::VecDeque;

impl TreeObject {
    /// The members with those of another object put in, each in the place of one of the same key.
    ///
    /// Keys and values are moved. Takes memory for the list of members.
    #[tactic(auto, using(crate::proofs::MergeLemmas::rises_with_all))]
    pub fn with_all(self, alloc: Global, others: TreeObject) -> Result<TreeObject, AllocError>
        ensures { IfOk result (λ o. o ≡ put_all others self) }
    {
        Ok(TreeObject {
            members: merged(alloc, self.members, others.members)?,
        })
    }
}

// Both lists are in byte order of their keys, so each is gone over once.
fn merged(alloc: Global, own: Vec<Member>, others: Vec<Member>) -> Result<Vec<Member>, AllocError>
    requires { HasOrderedKeys (map pair_of others.items) }
    ensures { IfOk result (λ v. map pair_of v.items ≡ put_all (map pair_of others.items) (map pair_of own.items)) }
{
    let mut merged = Vec::new(alloc);
    let mut own = VecDeque::from(own);
    for other in others {
        while let Some(member) = pop_below(&mut own, &other.key) {
            merged.push(member)?;
        }
        drop_first(&mut own, &other.key);
        merged.push(other)?;
    }
    merged.append(&mut Vec::from(own))?;
    Ok(merged)
}

/// Takes out the first member, where its key is below this one. Takes no memory.
pub fn pop_below(members: &mut VecDeque<Member>, key: &Text) -> Option<Member>
    ensures { TakesBelow key.now (option_map pair_of result) (map pair_of members.old.items) (map pair_of members.new.items) }
{
    let is_below = match members.front() {
        Some(member) => member.key.as_str() < key.as_str(),
        None => false,
    };
    if is_below { members.pop_front() } else { None }
}

// Drops the first member, where it has this key.
fn drop_first(members: &mut VecDeque<Member>, key: &Text)
    ensures { map pair_of members.new.items ≡ without_first key.now (map pair_of members.old.items) }
{
    let has_key = match members.front() {
        Some(member) => member.key.as_str() == key.as_str(),
        None => false,
    };
    if has_key {
        members.pop_front();
    }
}
