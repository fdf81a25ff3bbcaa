//! Pointers: a key of a patch in parts, and the value that the parts lead to.
ghost use Rattle.std.specs.Prelude.{◌≡◌, ◌<◌, IfOk, None, Some, length, option_map};
ghost use Rattle.spec_json.specs.Pointer.{parts, value_at};
ghost use Rattle.spec_json.specs.TreeData.{data_of};
ghost use Rattle.patch_object.specs.declared.pointer.PointerError.TheVariants.{BadEscape, NoMemory};

use crate::reader::Reader;
use spec_json::text::Text;
use spec_json::tree::Tree;
use std::alloc::{AllocError, AllocFailed, Global};
use std::marker::Model;

/// The keys of the members that lead from a tree to a value in it, one at least.
///
/// It is a JSON Pointer without the `/` in front (RFC 6901, RFC 8620 section 5.3). Contracts see the list of its parts.
#[derive(Drop)]
pub struct Pointer {
    parts: Vec<Text>,
}

impl Model for Pointer {
    ghost use Rattle.std.specs.Prelude.{List, ℕ, ◌<◌, length};

    ghost Value = { List (List ℕ) };

    ghost view = { λ a. a.parts.items };

    ghost invariant = { λ a. 0 < length a.parts.items };
}

/// Why a pointer wasn't read.
#[derive(Clone, Copy, Debug, PartialEq, Eq)]
pub enum PointerError {
    /// A `~` is followed by neither `0` nor `1`.
    BadEscape,
    /// Out of memory.
    NoMemory,
}

impl From<AllocError> for PointerError {
    ghost from_gives = { λ _ error. error ≡ NoMemory };

    fn from(_: AllocError) -> Self {
        PointerError::NoMemory
    }
}

impl<T: Drop> From<AllocFailed<T>> for PointerError {
    ghost from_gives = { λ _ error. error ≡ NoMemory };

    fn from(_: AllocFailed<T>) -> Self {
        PointerError::NoMemory
    }
}

impl Pointer {
    /// Reads a key of a patch: its parts stand between `/`s, and in a part `~1` stands for `/` and `~0` for `~`.
    ///
    /// The empty key is one empty part. BadEscape comes where a `~` is followed by neither `0` nor `1` (RFC 6901
    /// section 3). Takes memory for the parts.
    pub fn read(alloc: Global, key: &Text) -> Result<Pointer, PointerError>
        ensures ok { IfOk result (λ pointer. parts key.now ≡ Some pointer) }
        ensures bad_escape { result ≡ Err BadEscape → parts key.now ≡ None }
    {
        let mut reader = Reader::new(alloc);
        for c in key.as_str().chars() {
            reader.read(alloc, c)?;
        }
        match reader.finish()? {
            None => Err(PointerError::BadEscape),
            Some(parts) => Ok(Pointer { parts }),
        }
    }

    /// The parts, in order. Takes no memory.
    pub fn parts(&self) -> &[Text]
        ensures parts { result.now ≡ self.now }
        ensures some { 0 < length result.now }
    {
        &self.parts
    }
}

/// The value that a pointer leads to, where each of its parts is the key of a member.
///
/// An item of an array is none (RFC 8620 section 5.3). Takes no memory.
pub fn lookup<'a>(tree: &'a Tree, pointer: &Pointer) -> Option<&'a Tree>
    ensures { option_map (λ t. data_of t.now) result ≡ value_at pointer.now (data_of tree.now) }
{
    value_at_parts(tree, &pointer.parts)
}

/// The value that parts lead to, each the key of a member. No parts lead to the tree itself. Takes no memory.
pub(crate) fn value_at_parts<'a>(tree: &'a Tree, parts: &[Text]) -> Option<&'a Tree>
    ensures { option_map (λ t. data_of t.now) result ≡ value_at parts.now (data_of tree.now) }
{
    let mut value = tree;
    for part in parts {
        match value.get(part.as_str()) {
            None => return None,
            Some(member) => value = member,
        }
    }
    Some(value)
}
