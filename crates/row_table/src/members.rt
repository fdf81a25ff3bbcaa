//! The members of the objects that rows have.
use spec_json::tree::Tree;
use spec_time::wall::Wall;
use std::alloc::{AllocError, Global};
use time_text::read_local;

/// The wall second of the LocalDateTime at a key.
pub fn wall_at(tree: &Tree, key: &str) -> Option<Wall> {
    read_local(tree.text_at(key)?.as_str().as_bytes())
}

/// The number at a key, 0 where there is none.
pub fn signed_at(tree: &Tree, key: &str) -> i64 {
    match tree.number_at(key) {
        Some(number) => i64::try_from(number.get()).unwrap_or_default(),
        None => 0,
    }
}

/// The number at a key, 0 where there is none that isn't negative.
pub fn count_at(tree: &Tree, key: &str) -> u64 {
    tree.get(key).map(count_in).unwrap_or_default()
}

/// The number that a value is, 0 where it is none that isn't negative.
pub fn count_in(tree: &Tree) -> u64 {
    match tree {
        Tree::Whole(number) => u64::try_from(number.get()).unwrap_or_default(),
        _ => 0,
    }
}

/// The numbers of the list at a key, none where there is no list. Takes memory for them.
pub fn counts_at(alloc: Global, tree: &Tree, key: &str) -> Result<Vec<u64>, AllocError> {
    let mut numbers = Vec::new(alloc);
    for item in tree.list_at(key).unwrap_or(&[]) {
        numbers.push(count_in(item))?;
    }
    Ok(numbers)
}
