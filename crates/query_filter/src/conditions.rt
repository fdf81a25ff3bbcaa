//! The conditions of an operator.
ghost use Rattle.std.specs.Prelude.{◌≡◌, ◌<◌, IfSome, map, option_map};
ghost use Rattle.spec_json.specs.Data.{items_depth, items_of, members_depth, members_of};
ghost use Rattle.spec_json.specs.TreeData.{data_of};
ghost use Rattle.query_filter.specs.Conditions.{conditions_in};

use spec_json::tree::{Tree, TreeObject};

/// The conditions, where `conditions` is a list. Takes no memory.
#[tactic(auto, using(crate::proofs::ConditionLemmas::conditions_fall))]
pub(crate) fn conditions_of(object: &TreeObject) -> Option<&[Tree]>
    ensures value { option_map (λ items. map data_of items.now) result ≡ conditions_in object.now }
    ensures falls { IfSome result (λ items. items_depth (items_of (map data_of items.now)) < members_depth (members_of object.now)) }
{
    object.list_at("conditions")
}
