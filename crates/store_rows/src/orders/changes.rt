//! Rows of changes between two results, and of what a splice makes of them.
use crate::orders::items::{ids_at, items_at};
use crate::orders::results::{order_in, refusal};
use query_order::change::{changes_of, splice};
use query_order::order::Order;
use query_order::result;
use row_table::answers::{list_of, whole, word};
use row_table::members::{count_in, counts_at};
use spec_history::ids::Ids;
use spec_json::tree::{Tree, TreeList};
use spec_queries::delta::{Delta, Place, Places};
use std::alloc::{AllocError, Global};

/// The changes between the results of `sort` over the items `before` and `after`, where `touched` were touched, or the name of what is wrong
/// with the sort.
pub fn changes_between(alloc: Global, asked: &Tree) -> Result<Option<Tree>, AllocError> {
    match order_in(alloc, asked) {
        Ok(order) => changes_by(alloc, asked, &order),
        Err(error) => refusal(alloc, error),
    }
}

/// The list of the removed numbers, and that of the added ones with their indexes. A text where a splice of the changes isn't the later
/// result.
fn changes_by(alloc: Global, asked: &Tree, order: &Order) -> Result<Option<Tree>, AllocError> {
    let old = ids_in_order(alloc, asked, "before", order)?;
    let new = ids_in_order(alloc, asked, "after", order)?;
    let touched = counts_at(alloc, asked, "touched")?;
    let delta = changes_of(alloc, &old, &new, &touched)?;
    let spliced = splice(alloc, &old, &delta)?;
    if spliced.items().as_slice() == new.as_slice() {
        Ok(Some(delta_tree(alloc, &delta)?))
    } else {
        Ok(Some(word(alloc, "a splice that isn't the later result")?))
    }
}

/// The numbers of the items at a key, in the order of the result.
fn ids_in_order(
    alloc: Global,
    asked: &Tree,
    key: &str,
    order: &Order,
) -> Result<Vec<u64>, AllocError> {
    let items = items_at(alloc, asked, key)?;
    let ids = ids_at(alloc, asked, key)?;
    if ids.len() != items.len() {
        return Ok(Vec::new(alloc));
    }
    let places = result::result(alloc, &items, order)?;
    result::numbers_at(alloc, &ids, places.items())
}

fn delta_tree(alloc: Global, delta: &Delta) -> Result<Tree, AllocError> {
    let mut added = Vec::new(alloc);
    for place in delta.added.items() {
        let pair = vec![in alloc; whole(place.id), whole(place.index)]?;
        added.push(Tree::List(TreeList::new(pair)))?;
    }
    let removed = list_of(alloc, delta.removed.items())?;
    let both = vec![in alloc; removed, Tree::List(TreeList::new(added))]?;
    Ok(Tree::List(TreeList::new(both)))
}

/// The numbers `old` without `removed`, and with the pairs of number and index of `added` put in.
pub fn splice_of(alloc: Global, asked: &Tree) -> Result<Option<Tree>, AllocError> {
    let old = counts_at(alloc, asked, "old")?;
    let delta = Delta {
        removed: Ids::new(counts_at(alloc, asked, "removed")?),
        added: Places::new(places_at(alloc, asked, "added")?),
    };
    let spliced = splice(alloc, &old, &delta)?;
    Ok(Some(list_of(alloc, spliced.items())?))
}

fn places_at(alloc: Global, tree: &Tree, key: &str) -> Result<Vec<Place>, AllocError> {
    let mut places = Vec::new(alloc);
    if let Some(Tree::List(list)) = tree.get(key) {
        for item in list.items() {
            if let Tree::List(pair) = item
                && let [id, index] = pair.items().as_slice()
            {
                places.push(Place {
                    id: count_in(id),
                    index: count_in(index),
                })?;
            }
        }
    }
    Ok(places)
}
