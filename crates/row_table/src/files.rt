//! Files and their bytes, as the rows of tables have them.
use crate::line::tree_in;
use json_edge::write::tree_text;
use spec_json::tree::Tree;
use std::alloc::{AllocError, Global};

/// Files by their names.
pub type Files = Vec<(String, Vec<u8>)>;

/// The files by name that a line has, where it is an object. Takes memory for them.
pub fn files_in(alloc: Global, line: &str) -> Result<Option<Files>, AllocError> {
    let Some(Tree::Object(object)) = tree_in(alloc, line)? else {
        return Ok(None);
    };
    let mut files = Vec::new(alloc);
    for member in object.members() {
        let name = String::from_str(alloc, member.key.as_str())?;
        files.push((name, bytes_of(alloc, &member.value)?))?;
    }
    Ok(Some(files))
}

/// The bytes of a text, those of the parts of a list one behind the other, the byte of a number, and the compact text of an object. Takes
/// memory for them.
pub fn bytes_of(alloc: Global, value: &Tree) -> Result<Vec<u8>, AllocError> {
    let Tree::List(parts) = value else {
        return part_bytes(alloc, value);
    };
    let mut bytes = Vec::new(alloc);
    for part in parts.items() {
        bytes.extend_from_slice(&part_bytes(alloc, part)?)?;
    }
    Ok(bytes)
}

fn part_bytes(alloc: Global, part: &Tree) -> Result<Vec<u8>, AllocError> {
    match part {
        Tree::Text(text) => text.as_str().as_bytes().to_vec(alloc),
        Tree::Whole(byte) => Ok(vec![in alloc; u8::try_from(byte.get()).unwrap_or(0)]?),
        part => tree_text(alloc, part),
    }
}
