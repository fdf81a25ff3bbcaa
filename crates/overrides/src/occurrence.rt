//! The objects of occurrences.
ghost use Rattle.std.specs.Prelude.{◌≡◌, IfOk};
ghost use Rattle.spec_json.specs.Parts.{members_in};
ghost use Rattle.spec_json.specs.Patch.{patched};
ghost use Rattle.spec_json.specs.TreeData.{data_of};
ghost use Rattle.spec_recurrence.specs.Overrides.{changed_at, patch_changes, occurrence_in, single};
ghost use Rattle.overrides.specs.Reports.{IsPatched};

use patch_object::{PatchError, apply_to};
use spec_json::text::Text;
use spec_json::tree::{Tree, TreeObject};
use std::alloc::{AllocError, Global};

/// The object of the occurrence of an event with a recurrence id, where this is the patch of its override.
///
/// It is the event without its rules and overrides, which starts at the recurrence id, and then the patch without its
/// `excluded`. An occurrence without an override has the empty patch. None where a key of the patch fails. Takes memory
/// for the object.
pub fn occurrence_tree(
    alloc: Global,
    event: &Tree,
    key: &Text,
    patch: &TreeObject,
) -> Result<Option<Tree>, AllocError>
    ensures { IfOk result (λ o. IsPatched o (occurrence_in (members_in (data_of event.now)) key.now patch.now)) }
{
    let alone = single_members(alloc, event)?;
    let changes = patch_changes(patch)?;
    changed_at(alloc, key, &changes, alone)
}

/// A copy of an event without its rules and overrides.
#[tactic(auto, using(spec_json::specs::Data::pairs_back))]
pub(crate) fn single(alloc: Global, event: &Tree) -> Result<Tree, AllocError>
    ensures { IfOk result (λ t. members_in (data_of t) ≡ single (members_in (data_of event.now))) }
{
    Ok(Tree::Object(single_members(alloc, event)?))
}

#[tactic(auto, using(spec_json::specs::Data::pairs_back))]
fn single_members(alloc: Global, event: &Tree) -> Result<TreeObject, AllocError>
    ensures { IfOk result (λ o. o ≡ single (members_in (data_of event.now))) }
{
    match event {
        Tree::Object(object) => single_of(object),
        _ => Ok(TreeObject::new(Vec::new(alloc))),
    }
}

fn single_of(event: &TreeObject) -> Result<TreeObject, AllocError>
    ensures { IfOk result (λ o. o ≡ single event.now) }
{
    let mut alone = event.copy()?;
    alone.take("recurrenceRules");
    alone.take("recurrenceOverrides");
    Ok(alone)
}

/// A copy of a patch without its `excluded`.
pub(crate) fn patch_changes(patch: &TreeObject) -> Result<TreeObject, AllocError>
    ensures { IfOk result (λ o. o ≡ patch_changes patch.now) }
{
    let mut changes = patch.copy()?;
    changes.take("excluded");
    Ok(changes)
}

/// An object with these changes, where it starts at the time of a key. None where a change fails.
pub(crate) fn changed_at(
    alloc: Global,
    key: &Text,
    changes: &TreeObject,
    alone: TreeObject,
) -> Result<Option<Tree>, AllocError>
    ensures { IfOk result (λ o. IsPatched o (changed_at key.now changes.now alone)) }
{
    let mut moved = alone;
    moved.put(Text::from_str(alloc, "start")?, Tree::Text(key.copy()?))?;
    patched(alloc, Tree::Object(moved), changes)
}

// The patched tree, none where a key of the patch fails.
fn patched(alloc: Global, tree: Tree, patch: &TreeObject) -> Result<Option<Tree>, AllocError>
    ensures { IfOk result (λ o. IsPatched o (patched (data_of tree) patch.now)) }
{
    match apply_to(alloc, tree, patch) {
        Ok(tree) => Ok(Some(tree)),
        Err(PatchError::InvalidPatch { .. }) => Ok(None),
        Err(PatchError::NoMemory) => Err(AllocError),
    }
}
