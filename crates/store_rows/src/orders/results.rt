//! Rows of results: a sort and the items that are put in order by it.
use crate::orders::items::items_at;
use query_order::order::Order;
use query_order::result::result;
use query_order::sort_argument::SortError;
use row_table::answers::{list_of, word};
use spec_json::tree::Tree;
use std::alloc::{AllocError, Global};

/// The order at `sort`.
pub fn order_in(alloc: Global, asked: &Tree) -> Result<Order, SortError> {
    match asked.get("sort") {
        Some(sort) => Order::read(alloc, sort),
        None => Order::read(alloc, &Tree::Null),
    }
}

/// The name of what is wrong with a sort.
pub fn refusal(alloc: Global, error: SortError) -> Result<Option<Tree>, AllocError> {
    match error {
        SortError::BadSort => Ok(Some(word(alloc, "invalidArguments")?)),
        SortError::UnsupportedSort => Ok(Some(word(alloc, "unsupportedSort")?)),
        SortError::NoMemory => Err(AllocError),
    }
}

/// The places of the items in the result, or the name of what is wrong with the sort.
pub fn result_of(alloc: Global, asked: &Tree) -> Result<Option<Tree>, AllocError> {
    match order_in(alloc, asked) {
        Ok(order) => places_of(alloc, asked, &order),
        Err(error) => refusal(alloc, error),
    }
}

fn places_of(alloc: Global, asked: &Tree, order: &Order) -> Result<Option<Tree>, AllocError> {
    let items = items_at(alloc, asked, "items")?;
    let places = result(alloc, &items, order)?;
    Ok(Some(list_of(alloc, places.items())?))
}
