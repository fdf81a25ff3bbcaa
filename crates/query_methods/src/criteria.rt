//! Which events a query asks for, and in which order.
ghost use Rattle.std.specs.Prelude.{◌≡◌, IfErr, IfOk, OnOk, None, false};
ghost use Rattle.spec_queries.specs.Criteria.{asks_window, criteria_refusal, filter_or_all, order_of, sight_of, sort_or_none, terms_refusal};
ghost use Rattle.spec_queries.specs.Sorts.{by_comparators, sort_in};
ghost use Rattle.query_methods.specs.Reports.{Reports};
ghost use Rattle.query_methods.specs.ReadFor.{IsReadFor};
ghost use Rattle.query_methods.specs.Sights.{seen_by};
ghost use Rattle.query_order.specs.Reports.{Reports as ReportsSort};

use crate::error::QueryError;
use crate::sight::Sight;
use query_filter::{Filter, FilterError};
use query_order::order::Order;
use query_order::sort_argument::SortError;
use spec_calls::call::{Criteria, MethodError};
use spec_json::tree::{Tree, TreeObject};
use spec_queries::limits::MAX_EXPANDED_SECONDS;
use std::alloc::Global;
use zone_instants::rule_of;
use zone_table::Zones;

/// What the criteria of a query come to.
#[derive(Drop)]
pub(crate) struct Terms<'a> {
    /// The events that the filter holds of.
    pub sight: Sight<'a>,
    /// The order of the result.
    pub order: Order,
}

/// Reads the criteria of a query whose results are events. What is bad of any is told before what isn't known, and of that the filter's
/// before the sort's.
///
/// Takes memory for the filter, its folded texts and the comparators.
pub(crate) fn read_terms<'a>(
    alloc: Global,
    zones: &'a Zones,
    criteria: &'a Criteria,
) -> Result<Terms<'a>, QueryError>
    ensures known { OnOk result (criteria_refusal zones.now criteria.now false ≡ None) }
    ensures sight { IfOk result (λ t. seen_by t.sight ≡ sight_of zones.now criteria.now) }
    ensures zones { IfOk result (λ t. t.sight.zones.now ≡ zones.now) }
    ensures order { IfOk result (λ t. t.order ≡ order_of criteria.now) }
    ensures refused { IfErr result (λ e. Reports e (criteria_refusal zones.now criteria.now false)) }
{
    let Some(rule) = rule_of(zones, &criteria.time_zone) else {
        return Err(QueryError::Method(MethodError::InvalidArguments));
    };
    let (filter, order) = filter_and_order(alloc, criteria, false)?;
    let sight = Sight::new(alloc, filter, rule, zones, &criteria.time_zone)?;
    Ok(Terms { sight, order })
}

/// Reads the filter and the sort of criteria, whatever their zone. Where each occurrence is to be a result of its own (`expand`), a filter
/// that doesn't ask for a window of at most 366 days isn't supported.
///
/// Takes memory for the filter and the comparators.
pub fn filter_and_order(
    alloc: Global,
    criteria: &Criteria,
    expand: bool,
) -> Result<(Filter, Order), QueryError>
    ensures known { OnOk result (terms_refusal criteria.now expand ≡ None) }
    ensures filter { IfOk result (λ r. r.0 ≡ filter_or_all criteria.now.filter) }
    ensures order { IfOk result (λ r. r.1 ≡ order_of criteria.now) }
    ensures refused { IfErr result (λ e. Reports e (terms_refusal criteria.now expand)) }
{
    let filter = read_filter(alloc, &criteria.filter, expand);
    let order = read_order(alloc, &criteria.sort);
    match (filter, order) {
        (Ok(filter), Ok(order)) => Ok((filter, order)),
        (Err(FilterError::NoMemory), _) | (_, Err(SortError::NoMemory)) => Err(
            QueryError::NoMemory,
        ),
        (Err(FilterError::Bad), _) | (_, Err(SortError::BadSort)) => {
            Err(QueryError::Method(MethodError::InvalidArguments))
        }
        (Err(FilterError::Unsupported), _) => {
            Err(QueryError::Method(MethodError::UnsupportedFilter))
        }
        (_, Err(SortError::UnsupportedSort)) => {
            Err(QueryError::Method(MethodError::UnsupportedSort))
        }
    }
}

fn read_filter(alloc: Global, filter: &Option<Tree>, expand: bool) -> Result<Filter, FilterError>
    ensures { IsReadFor expand (filter_or_all filter.now) result }
{
    let filter = match filter {
        Some(filter) => Filter::read(filter)?,
        None => Filter::read(&Tree::Object(TreeObject::new(Vec::new(alloc))))?,
    };
    if expand && !asks_window(&filter) {
        return Err(FilterError::Unsupported);
    }
    Ok(filter)
}

fn asks_window(filter: &Filter) -> bool
    ensures { result ≡ asks_window filter.now }
{
    match filter.window() {
        Some((after, before)) => {
            before.seconds() as i128 - after.seconds() as i128 <= MAX_EXPANDED_SECONDS as i128
        }
        None => false,
    }
}

fn read_order(alloc: Global, sort: &Option<Tree>) -> Result<Order, SortError>
    ensures ok { IfOk result (λ order. sort_in (sort_or_none sort.now) ≡ by_comparators order) }
    ensures err { IfErr result (λ error. ReportsSort error (sort_in (sort_or_none sort.now))) }
{
    match sort {
        Some(sort) => Order::read(alloc, sort),
        None => Order::read(alloc, &Tree::Null),
    }
}
