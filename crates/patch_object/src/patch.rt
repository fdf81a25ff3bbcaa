//! Patches of a tree.
ghost use Rattle.std.specs.Prelude.{◌≡◌, ◌<◌, ◌||◌, IfErr, IfOk, List, Ok, Some, false, length, map, ℕ};
ghost use Rattle.std.specs.List.{list_any};
ghost use Rattle.spec_json.specs.Patch.{fails, has_parent, is_prefix, on_members, patched};
ghost use Rattle.spec_json.specs.Pointer.{parts};
ghost use Rattle.spec_json.specs.TreeData.{data_of};
ghost use Rattle.patch_object.specs.Edits.{change_of, placed_each};
ghost use Rattle.patch_object.specs.Reports.{Reports, ReportsKey};
ghost use Rattle.patch_object.specs.declared.patch.PatchError.TheVariants.{InvalidPatch, NoMemory};

use crate::place::{Edit, place};
use crate::pointer::{Pointer, PointerError, value_at_parts};
use crate::pointer_set::PointerSet;
use spec_json::text::Text;
use spec_json::tree::{Tree, TreeObject};
use std::alloc::{AllocError, AllocFailed, Global};

/// Why there is no patched tree.
#[derive(Drop)]
pub enum PatchError {
    /// A key of the patch fails.
    InvalidPatch {
        /// The first such key, in byte order.
        key: Text,
    },
    /// Out of memory.
    NoMemory,
}

impl From<AllocError> for PatchError {
    ghost from_gives = { λ _ error. error ≡ NoMemory };

    fn from(_: AllocError) -> Self {
        PatchError::NoMemory
    }
}

impl<T: Drop> From<AllocFailed<T>> for PatchError {
    ghost from_gives = { λ _ error. error ≡ NoMemory };

    fn from(_: AllocFailed<T>) -> Self {
        PatchError::NoMemory
    }
}

/// Gives the tree with each member that the patch names put in, or removed where its value is null.
///
/// The keys of the patch are pointers into the tree. Nothing is created on the way to a member (RFC 8620 section 5.3): a
/// key fails where it is no pointer, where a key before it is its prefix, and where the value that the member is to stand in
/// isn't an object that is there. Takes memory for the new tree.
pub fn apply(alloc: Global, tree: &Tree, patch: &TreeObject) -> Result<Tree, PatchError>
    ensures ok { IfOk result (λ t. patched (data_of tree.now) patch.now ≡ Ok (data_of t)) }
    ensures err { IfErr result (λ error. Reports error (patched (data_of tree.now) patch.now)) }
{
    let edits = tested_edits(alloc, tree, patch)?;
    Ok(place(tree.copy()?, &edits, 0)?)
}

/// Gives a tree with the same members put in or removed as `apply` does, and copies no more of it than what the patch puts in.
///
/// The tree is given up, also where a key fails. Takes memory for what is put in.
pub fn apply_to(alloc: Global, tree: Tree, patch: &TreeObject) -> Result<Tree, PatchError>
    ensures ok { IfOk result (λ t. patched (data_of tree) patch.now ≡ Ok (data_of t)) }
    ensures err { IfErr result (λ error. Reports error (patched (data_of tree) patch.now)) }
{
    let edits = tested_edits(alloc, &tree, patch)?;
    Ok(place(tree, &edits, 0)?)
}

// The edits that a patch asks for, in its order, where none of its keys fails.
fn tested_edits<'a>(
    alloc: Global,
    tree: &Tree,
    patch: &'a TreeObject,
) -> Result<Vec<Edit<'a>>, PatchError>
    ensures ok { IfOk result (λ edits. patched (data_of tree.now) patch.now ≡ Ok (on_members (placed_each (map change_of edits.items)) (data_of tree.now))) }
    ensures err { IfErr result (λ error. Reports error (patched (data_of tree.now) patch.now)) }
{
    let mut earlier = PointerSet::new(alloc);
    let mut edits = Vec::new(alloc);
    for member in patch.members() {
        let pointer = tested_pointer(alloc, tree, &mut earlier, &member.key)?;
        edits.push(Edit {
            pointer,
            value: &member.value,
        })?;
    }
    Ok(edits)
}

// The pointer that a key of a patch is, where the key doesn't fail. It is then among the earlier ones.
fn tested_pointer(
    alloc: Global,
    tree: &Tree,
    earlier: &mut PointerSet,
    key: &Text,
) -> Result<Pointer, PatchError>
    ensures pointer { IfOk result (λ pointer. parts key.now ≡ Some pointer) }
    ensures passes { IfOk result (λ pointer. fails (data_of tree.now) earlier.old (Some pointer) ≡ false) }
    ensures added { IfOk result (λ pointer. (ps : List (List ℕ)) → list_any (λ e. is_prefix e ps) earlier.new ≡ (is_prefix pointer ps || list_any (λ e. is_prefix e ps) earlier.old)) }
    ensures err { IfErr result (λ error. ReportsKey error key.now (fails (data_of tree.now) earlier.old (parts key.now))) }
{
    let pointer = match Pointer::read(alloc, key) {
        Ok(pointer) => pointer,
        Err(PointerError::NoMemory) => return Err(PatchError::NoMemory),
        Err(PointerError::BadEscape) => return Err(PatchError::InvalidPatch { key: key.copy()? }),
    };
    if !has_parent_object(tree, pointer.parts()) || earlier.add(alloc, &pointer)? {
        return Err(PatchError::InvalidPatch { key: key.copy()? });
    }
    Ok(pointer)
}

// Whether the value in which the last part stands is an object that is there.
fn has_parent_object(tree: &Tree, parts: &[Text]) -> bool
    requires { 0 < length parts.now }
    ensures { result ≡ has_parent parts.now (data_of tree.now) }
{
    let parent = value_at_parts(tree, &parts[..parts.len() - 1]);
    matches!(parent, Some(Tree::Object(_)))
}
