//! The items of the rows.
use row_table::members::{count_at, signed_at};
use spec_json::text::Text;
use spec_json::tree::Tree;
use spec_queries::item::Item;
use std::alloc::{AllocError, Global};

/// The items of the list at a key, a member of which that is left out being 0 or empty.
pub fn items_at(alloc: Global, tree: &Tree, key: &str) -> Result<Vec<Item>, AllocError> {
    let mut items = Vec::new(alloc);
    if let Some(Tree::List(list)) = tree.get(key) {
        for item in list.items() {
            items.push(item_in(alloc, item)?)?;
        }
    }
    Ok(items)
}

/// The numbers of these items, by their `id`.
pub fn ids_at(alloc: Global, tree: &Tree, key: &str) -> Result<Vec<u64>, AllocError> {
    let mut ids = Vec::new(alloc);
    if let Some(Tree::List(list)) = tree.get(key) {
        for item in list.items() {
            ids.push(count_at(item, "id"))?;
        }
    }
    Ok(ids)
}

fn item_in(alloc: Global, tree: &Tree) -> Result<Item, AllocError> {
    Ok(Item {
        start: signed_at(tree, "start"),
        uid: text_at(alloc, tree, "uid")?,
        title: text_at(alloc, tree, "title")?,
        created: signed_at(tree, "created"),
        updated: signed_at(tree, "updated"),
    })
}

fn text_at(alloc: Global, tree: &Tree, key: &str) -> Result<Text, AllocError> {
    match tree.get(key) {
        Some(Tree::Text(text)) => text.copy(),
        _ => Text::from_str(alloc, ""),
    }
}
