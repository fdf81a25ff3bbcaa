//! The members of an object: in byte order of their keys, and of a key that comes twice the last.
ghost use Rattle.std.specs.Prelude.{◌≡◌, [], IfOk, IfErr, OnOk, IfSome, map, option_map};
ghost use Rattle.spec_json.specs.TreeData.{data_of, pair_of};
ghost use Rattle.spec_json.specs.ObjectKeys.{HasOrderedKeys};
ghost use Rattle.json_edge.specs.declared.error.ReadError.TheVariants.{NoMemory};
ghost use Rattle.json_edge.specs.FoundMembers.{object_found, whole_pairs, first_of_each, is_next, last_key};
ghost use Rattle.spec_json.specs.InOrder.{in_order};
ghost use Rattle.json_edge.specs.FoundMembers.{key_below};
ghost use Rattle.json_edge.specs.FoundData.{found_of};

use crate::error::ReadError;
use spec_json::text::Text;
use spec_json::tree::{Member, Tree, TreeObject};
use std::alloc::{AllocError, Global};

/// A key and its value, none where a number of the value isn't whole.
#[derive(Drop)]
pub struct FoundMember {
    pub key: Text,
    pub value: Option<Tree>,
}

/// The object of the members that were found, in the order in which they were; none where a number of it isn't whole.
///
/// Takes memory for the object, and until it returns for sorting.
pub fn object(alloc: Global, found: Vec<FoundMember>) -> Result<Option<Tree>, ReadError>
    ensures ok { IfOk result (λ t. object_found (map found_of found.items) ≡ option_map data_of t) }
    ensures err { IfErr result (λ e. e ≡ NoMemory) }
{
    let mut found = found;
    found.reverse();
    sort(&mut found)?;
    match distinct(alloc, found)? {
        Some(members) => Ok(Some(Tree::Object(TreeObject::new(members)))),
        None => Ok(None),
    }
}

// Members of one key stay as they stood, so of members that were turned round the last that was found comes first.
fn sort(found: &mut Vec<FoundMember>) -> Result<(), AllocError>
    ensures { OnOk result (map found_of found.new.items ≡ in_order key_below (map found_of found.old.items)) }
{
    found.sort_by(|a, b| a.key.as_str().cmp(b.key.as_str()))
}

// The first of each key.
fn distinct(alloc: Global, found: Vec<FoundMember>) -> Result<Option<Vec<Member>>, ReadError>
    ensures ok { IfOk result (λ v. whole_pairs (first_of_each (last_key []) (map found_of found.items)) ≡ option_map (λ ms. map pair_of ms.items) v) }
    ensures ordered { IfOk result (λ v. IfSome v (λ ms. HasOrderedKeys (map pair_of ms.items))) }
    ensures err { IfErr result (λ e. e ≡ NoMemory) }
{
    let mut members = Vec::with_capacity(alloc, found.len())?;
    for FoundMember { key, value } in found {
        if is_new(&members, key.as_str()) {
            match value {
                Some(value) => members.push(Member { key, value })?,
                None => return Ok(None),
            }
        }
    }
    Ok(Some(members))
}

fn is_new(members: &[Member], key: &str) -> bool
    ensures { result ≡ is_next (last_key (map pair_of members.now)) key.now }
{
    match members.last() {
        Some(member) => member.key.as_str() < key,
        None => true,
    }
}
