//! Rows of patches and pointers.
pub mod times;

use patch_object::{PatchError, Pointer, PointerError, apply, lookup};
use row_table::answers::text_of;
use row_table::line::tree_in;
use spec_json::text::Text;
use spec_json::tree::{Tree, TreeObject};
use std::alloc::{AllocError, Global};

/// What comes of a question, where it can be read: a `tree` has a `patch` applied, or its value `at` a pointer looked up, and a `pointer` is read.
pub fn came(alloc: Global, asked: &str) -> Result<Option<String>, AllocError> {
    let Some(asked) = tree_in(alloc, asked)? else {
        return Ok(None);
    };
    if let Some(tree) = asked.get("tree") {
        came_of_tree(alloc, &asked, tree)
    } else if let Some(key) = asked.text_at("pointer") {
        Ok(Some(parts(alloc, key)?))
    } else {
        Ok(None)
    }
}

fn came_of_tree(alloc: Global, asked: &Tree, tree: &Tree) -> Result<Option<String>, AllocError> {
    if let Some(patch) = asked.object_at("patch") {
        Ok(Some(patched(alloc, tree, patch)?))
    } else if let Some(key) = asked.text_at("at") {
        Ok(Some(value_at(alloc, tree, key)?))
    } else {
        Ok(None)
    }
}

/// The tree with the patch applied, or the first key that fails.
fn patched(alloc: Global, tree: &Tree, patch: &TreeObject) -> Result<String, AllocError> {
    match apply(alloc, tree, patch) {
        Ok(tree) => text_of(alloc, &tree),
        Err(PatchError::InvalidPatch { key }) => format!(in alloc; "fails at {}", key.as_str()),
        Err(PatchError::NoMemory) => Err(AllocError),
    }
}

/// The value that a pointer leads to.
fn value_at(alloc: Global, tree: &Tree, key: &Text) -> Result<String, AllocError> {
    match Pointer::read(alloc, key) {
        Ok(pointer) => match lookup(tree, &pointer) {
            Some(value) => text_of(alloc, value),
            None => String::from_str(alloc, "none"),
        },
        Err(error) => refusal(alloc, error),
    }
}

/// The parts of a pointer, each in quotation marks.
fn parts(alloc: Global, key: &Text) -> Result<String, AllocError> {
    match Pointer::read(alloc, key) {
        Ok(pointer) => quoted(alloc, pointer.parts()),
        Err(error) => refusal(alloc, error),
    }
}

fn quoted(alloc: Global, parts: &[Text]) -> Result<String, AllocError> {
    let mut text = String::new(alloc);
    for part in parts {
        text.push('"')?;
        text.push_str(part.as_str())?;
        text.push('"')?;
    }
    Ok(text)
}

fn refusal(alloc: Global, error: PointerError) -> Result<String, AllocError> {
    match error {
        PointerError::BadEscape => String::from_str(alloc, "no pointer"),
        PointerError::NoMemory => Err(AllocError),
    }
}
