//! How many operators and conditions a filter has.
ghost use Rattle.std.specs.Prelude.{◌≡◌, ◌+◌, ◌<◌, MatchOption, map, nat_lt};
ghost use Rattle.std.specs.List.{sum};
ghost use Rattle.spec_filters.specs.Filters.{count_parts};
ghost use Rattle.spec_filters.specs.declared.limits.TheConstants.{MAX_FILTER_PARTS};
ghost use Rattle.spec_json.specs.Data.{members_of, object};
ghost use Rattle.spec_json.specs.TreeData.{data_of};

use crate::conditions::conditions_of;
use crate::members::given;
use spec_filters::limits::MAX_FILTER_PARTS;
use spec_json::tree::{Tree, TreeObject};

/// Whether a filter has more operators and conditions than it may have. Takes no memory, and no more time than that many take.
pub(crate) fn has_too_many_parts(filter: &Tree) -> bool
    ensures { result ≡ nat_lt MAX_FILTER_PARTS (count_parts (data_of filter.now)) }
{
    left_behind(filter, MAX_FILTER_PARTS).is_none()
}

// What is left of so many operators and conditions behind those of a filter, or `None` where it has more.
#[cycle(parts)]
fn left_behind(filter: &Tree, left: usize) -> Option<usize>
    ensures { MatchOption result (left < count_parts (data_of filter.now)) (λ rest. rest + count_parts (data_of filter.now) ≡ left) }
{
    match filter {
        Tree::Object(object) => left_behind_object(object, left),
        _ => Some(left),
    }
}

#[cycle(parts)]
fn left_behind_object(filter: &TreeObject, left: usize) -> Option<usize>
    ensures { MatchOption result (left < count_parts (object (members_of filter.now))) (λ rest. rest + count_parts (object (members_of filter.now)) ≡ left) }
{
    let rest = left.checked_sub(1)?;
    match given(filter, "operator") {
        None => Some(rest),
        Some(_) => match conditions_of(filter) {
            None => Some(rest),
            Some(conditions) => left_behind_all(conditions, rest),
        },
    }
}

#[cycle(parts)]
#[tactic(auto, using(spec_json::specs::TreeDepth::item_falls))]
fn left_behind_all(filters: &[Tree], left: usize) -> Option<usize>
    ensures { MatchOption result (left < sum (map count_parts (map data_of filters.now))) (λ rest. rest + sum (map count_parts (map data_of filters.now)) ≡ left) }
{
    let mut rest = left;
    for filter in filters {
        rest = left_behind(filter, rest)?;
    }
    Some(rest)
}
