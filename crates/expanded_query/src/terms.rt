//! Which occurrences a query asks for, and in which order.
ghost use Rattle.std.specs.Prelude.{◌≡◌, IfErr, IfOk, OnOk, None, true};
ghost use Rattle.expanded_query.specs.Sights.{looks_for};
ghost use Rattle.spec_queries.specs.Criteria.{criteria_refusal, filter_or_all, order_of};
ghost use Rattle.query_methods.specs.Reports.{Reports};

use crate::sight::OccurrenceSight;
use query_methods::criteria::filter_and_order;
use query_methods::error::QueryError;
use query_order::order::Order;
use spec_calls::call::{Criteria, MethodError};
use std::alloc::Global;
use zone_instants::rule_of;
use zone_table::Zones;

/// What the criteria of a query come to.
#[derive(Drop)]
pub(crate) struct Terms<'a> {
    /// The occurrences that the query asks for.
    pub(crate) sight: OccurrenceSight<'a>,
    /// The order of the result.
    pub(crate) order: Order,
}

/// Reads criteria. What is bad of any is told before what isn't supported, and of that the filter's before the sort's.
///
/// Takes memory for the filter, its folded texts and the comparators.
pub(crate) fn read_terms<'a>(
    alloc: Global,
    zones: &'a Zones,
    criteria: &'a Criteria,
) -> Result<Terms<'a>, QueryError>
    ensures known { OnOk result (criteria_refusal zones.now criteria.now true ≡ None) }
    ensures sight { IfOk result (λ t. looks_for t.sight ≡ (zones.now, (criteria.now.time_zone, filter_or_all criteria.now.filter))) }
    ensures zones { IfOk result (λ t. t.sight.zones.now ≡ zones.now) }
    ensures order { IfOk result (λ t. t.order ≡ order_of criteria.now) }
    ensures refused { IfErr result (λ e. Reports e (criteria_refusal zones.now criteria.now true)) }
{
    let Some(rule) = rule_of(zones, &criteria.time_zone) else {
        return Err(QueryError::Method(MethodError::InvalidArguments));
    };
    let (filter, order) = filter_and_order(alloc, criteria, true)?;
    let sight = OccurrenceSight::new(alloc, filter, rule, zones, &criteria.time_zone)?;
    Ok(Terms { sight, order })
}
