//! The lists of rules.
ghost use Rattle.std.specs.Prelude.{◌≡◌, ◌≤◌, IfOk, map, option_map};
ghost use Rattle.spec_json.specs.Parts.{all_some, as_list};
ghost use Rattle.spec_json.specs.TreeData.{data_of};
ghost use Rattle.spec_series.specs.RuleObjects.{each_in, month_in, nday_in, place_in};

use crate::values::{month, nday, place};
use spec_json::tree::Tree;
use spec_series::by_part::{Freq, NDays, Small};
use std::alloc::{AllocError, Global};

/// The items of the list that a value is.
#[tactic(auto, using(spec_json::specs::Data::items_back))]
pub(crate) fn items_of(value: &Tree) -> Option<&[Tree]>
    ensures { option_map (λ ts. map data_of ts.now) result ≡ as_list (data_of value.now) }
{
    match value {
        Tree::List(list) => Some(list.items()),
        _ => None,
    }
}

/// The days of the week that a list names, where each item names one; none, where there is no list.
pub(crate) fn ndays(
    alloc: Global,
    frequency: Freq,
    value: Option<&Tree>,
) -> Result<Option<NDays>, AllocError>
    ensures { IfOk result (λ o. o ≡ each_in (nday_in frequency) (option_map (λ t. data_of t.now) value.entry)) }
{
    let Some(value) = value else {
        return Ok(Some(NDays::new(Vec::new(alloc))?));
    };
    match items_of(value) {
        Some(items) => each_nday(alloc, frequency, items),
        None => Ok(None),
    }
}

#[tactic(auto, using(spec_json::proofs::Appending::push_option))]
fn each_nday(alloc: Global, frequency: Freq, items: &[Tree]) -> Result<Option<NDays>, AllocError>
    ensures { IfOk result (λ o. o ≡ all_some (nday_in frequency) (map data_of items.now)) }
{
    let mut days = Vec::new(alloc);
    for item in items {
        match nday(frequency, item) {
            Some(day) => days.push(day)?,
            None => return Ok(None),
        }
    }
    Ok(Some(NDays::new(days)?))
}

/// The places that a list gives, where each item is one; none, where there is no list.
pub(crate) fn places(
    alloc: Global,
    most: u32,
    value: Option<&Tree>,
) -> Result<Option<Small>, AllocError>
    requires { most ≤ 366 }
    ensures { IfOk result (λ o. o ≡ each_in (place_in most) (option_map (λ t. data_of t.now) value.entry)) }
{
    let Some(value) = value else {
        return Ok(Some(Small::new(Vec::new(alloc))?));
    };
    match items_of(value) {
        Some(items) => each_place(alloc, most, items),
        None => Ok(None),
    }
}

#[tactic(auto, using(spec_json::proofs::Appending::push_option))]
fn each_place(alloc: Global, most: u32, items: &[Tree]) -> Result<Option<Small>, AllocError>
    requires { most ≤ 366 }
    ensures { IfOk result (λ o. o ≡ all_some (place_in most) (map data_of items.now)) }
{
    let mut places = Vec::new(alloc);
    for item in items {
        match place(most, item) {
            Some(place) => places.push(place)?,
            None => return Ok(None),
        }
    }
    Ok(Some(Small::new(places)?))
}

/// The months that a list names, where each item names one; none, where there is no list.
pub(crate) fn months(alloc: Global, value: Option<&Tree>) -> Result<Option<Small>, AllocError>
    ensures { IfOk result (λ o. o ≡ each_in month_in (option_map (λ t. data_of t.now) value.entry)) }
{
    let Some(value) = value else {
        return Ok(Some(Small::new(Vec::new(alloc))?));
    };
    match items_of(value) {
        Some(items) => each_month(alloc, items),
        None => Ok(None),
    }
}

#[tactic(auto, using(spec_json::proofs::Appending::push_option))]
fn each_month(alloc: Global, items: &[Tree]) -> Result<Option<Small>, AllocError>
    ensures { IfOk result (λ o. o ≡ all_some month_in (map data_of items.now)) }
{
    let mut months = Vec::new(alloc);
    for item in items {
        match month(item) {
            Some(month) => months.push(month)?,
            None => return Ok(None),
        }
    }
    Ok(Some(Small::new(months)?))
}
