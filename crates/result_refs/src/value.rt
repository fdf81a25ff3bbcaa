//! Copies of the values that paths lead to.
ghost use Rattle.std.specs.Prelude.{◌≡◌, ◌≤◌, ◌++◌, IfOk, OnOk, drop, length, map, option_map};
ghost use Rattle.spec_json.specs.Parts.{all_some};
ghost use Rattle.spec_batch.specs.References.{items_or_self, joined, value_by};
ghost use Rattle.spec_json.specs.TreeData.{data_of};

use crate::path::{all_items, named_by};
use spec_json::text::Text;
use spec_json::tree::{Tree, TreeList};
use std::alloc::{AllocError, Global};

/// A copy of the value that the parts from the place `i` on lead to from this one (RFC 8620 section 3.7).
#[cycle(value)]
pub(crate) fn value_by(
    alloc: Global,
    parts: &[Text],
    i: usize,
    value: &Tree,
) -> Result<Option<Tree>, AllocError>
    requires { i ≤ length parts.now }
    ensures { IfOk result (λ o. option_map data_of o ≡ value_by (drop i parts.now) (data_of value.now)) }
{
    if i == parts.len() {
        return Ok(Some(value.copy()?));
    }
    if let Some(items) = all_items(value, &parts[i]) {
        return values_joined(alloc, parts, i + 1, items);
    }
    match named_by(value, &parts[i]) {
        None => Ok(None),
        Some(named) => value_by(alloc, parts, i + 1, named),
    }
}

// One list of what the parts from the place `i` on lead to from each item.
#[cycle(value)]
fn values_joined(
    alloc: Global,
    parts: &[Text],
    i: usize,
    items: &[Tree],
) -> Result<Option<Tree>, AllocError>
    requires { i ≤ length parts.now }
    ensures { IfOk result (λ o. option_map data_of o ≡ option_map joined (all_some (λ d. value_by (drop i parts.now) d) (map data_of items.now))) }
{
    let mut joined = Vec::new(alloc);
    for item in items {
        match value_by(alloc, parts, i, item)? {
            None => return Ok(None),
            Some(value) => put_in(&mut joined, value)?,
        }
    }
    Ok(Some(Tree::List(TreeList::new(joined))))
}

// A list is put in as its items.
#[tactic(auto, using(spec_json::specs::Data::items_back))]
fn put_in(joined: &mut Vec<Tree>, value: Tree) -> Result<(), AllocError>
    ensures { OnOk result (map data_of joined.new.items ≡ map data_of joined.old.items ++ items_or_self (data_of value)) }
{
    match value {
        Tree::List(list) => joined.append(&mut list.into_items())?,
        _ => joined.push(value)?,
    }
    Ok(())
}
