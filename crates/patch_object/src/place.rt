//! Puts values into a tree at the ends of paths, or takes out what stands there.
ghost use Rattle.std.specs.Prelude.{◌≡◌, ◌+◌, ◌<◌, ◌≤◌, IfOk, IsTrue, drop, length, map, take};
ghost use Rattle.spec_json.specs.Patch.{on_members, put_or_removed};
ghost use Rattle.spec_json.specs.TreeData.{data_of};
ghost use Rattle.patch_object.specs.Edits.{all_through, change_from, goes_through, is_group, placed_each};

use crate::cursor::Cursor;
use crate::pointer::Pointer;
use spec_json::text::Text;
use spec_json::tree::{Tree, TreeObject};
use std::alloc::AllocError;

/// Where a value is to be put, or taken out where it is null.
#[derive(Drop)]
pub(crate) struct Edit<'a> {
    pub(crate) pointer: Pointer,
    pub(crate) value: &'a Tree,
}

/// The tree with each edit made, one after the other, at the end of its pointer's parts from the place `i` on.
///
/// A path that leads nowhere changes nothing. Edits that stand together and go through the same member are made in it at once, so edits in
/// byte order of their keys go over each object once. Takes memory for what is put in.
#[cycle(place)]
#[tactic(auto, using(spec_json::specs::Data::pairs_back))]
pub(crate) fn place(tree: Tree, edits: &[Edit], i: usize) -> Result<Tree, AllocError>
    ensures { IfOk result (λ t. data_of t ≡ on_members (placed_each (map (change_from i) edits.now)) (data_of tree)) }
{
    match tree {
        Tree::Object(object) => Ok(Tree::Object(place_in(object, edits, i)?)),
        other => Ok(other),
    }
}

#[cycle(place)]
#[tactic(auto, using(crate::proofs::ChangeLemmas::placed_on))]
fn place_in(object: TreeObject, edits: &[Edit], i: usize) -> Result<TreeObject, AllocError>
    ensures { IfOk result (λ o. o ≡ placed_each (map (change_from i) edits.now) object) }
{
    let mut cursor = Cursor::new(object);
    let mut done = 0;
    while done < edits.len() {
        let n = group_len(&edits[done..], i);
        cursor = place_group(cursor, &edits[done..done + n], i)?;
        done += n;
    }
    cursor.into_object()
}

#[cycle(place)]
#[tactic(auto, using(crate::proofs::ChangeLemmas::group_ended, crate::proofs::ChangeLemmas::group_leaf, crate::proofs::ChangeLemmas::group_nowhere, crate::proofs::ChangeLemmas::group_within))]
fn place_group(cursor: Cursor, group: &[Edit], i: usize) -> Result<Cursor, AllocError>
    requires { IsTrue (is_group (map (change_from i) group.now)) }
    ensures { IfOk result (λ c. c ≡ placed_each (map (change_from i) group.now) cursor) }
{
    let parts = group[0].pointer.parts();
    if i >= parts.len() {
        return Ok(cursor);
    }
    if i + 1 == parts.len() {
        return put_or_remove(cursor, &parts[i], group[0].value);
    }
    let (cursor, child) = cursor.take(&parts[i])?;
    match child {
        None => Ok(cursor),
        Some(child) => {
            let child = place(child, group, i + 1)?;
            cursor.put(parts[i].copy()?, child)
        }
    }
}

// How many edits at the front are one, or go through the same member at the place `i` of their parts.
fn group_len(edits: &[Edit], i: usize) -> usize
    requires { 0 < length edits.now }
    ensures some { 0 < result }
    ensures bound { result ≤ length edits.now }
    ensures group { IsTrue (is_group (map (change_from i) (take result edits.now))) }
{
    match edits[0].pointer.parts().get(i) {
        None => 1,
        Some(key) => through_len(edits, key, i).max(1),
    }
}

// How many edits at the front go through the member with this key at the place `i` of their parts.
#[tactic(auto, using(crate::proofs::ChangeLemmas::through_more))]
fn through_len(edits: &[Edit], key: &Text, i: usize) -> usize
    ensures bound { result ≤ length edits.now }
    ensures through { IsTrue (all_through key.now (map (change_from i) (take result edits.now))) }
{
    for (n, edit) in edits.iter().enumerate() {
        if !goes_through(edit.pointer.parts(), key, i) {
            return n;
        }
    }
    edits.len()
}

// Whether these parts from the place `i` on begin with this key and go on behind it.
#[tactic(auto, using(crate::proofs::ChangeLemmas::through_long, crate::proofs::ChangeLemmas::through_short))]
fn goes_through(parts: &[Text], key: &Text, i: usize) -> bool
    ensures { result ≡ goes_through key.now (drop i parts.now) }
{
    if i >= parts.len() || i + 1 == parts.len() {
        return false;
    }
    parts[i].as_str() == key.as_str()
}

fn put_or_remove(cursor: Cursor, key: &Text, value: &Tree) -> Result<Cursor, AllocError>
    ensures { IfOk result (λ c. c ≡ put_or_removed key.now (data_of value.now) cursor) }
{
    match value {
        Tree::Null => Ok(cursor.take(key)?.0),
        _ => cursor.put(key.copy()?, value.copy()?),
    }
}
