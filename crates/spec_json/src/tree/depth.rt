//! How deep a value nests.
ghost use Rattle.std.specs.Prelude.{◌≡◌, map, nat_le};
ghost use Rattle.spec_json.specs.Data.{depth, items_depth, items_of, members_depth, members_of};
ghost use Rattle.spec_json.specs.TreeData.{data_of, pair_of};

use super::{Member, Tree};

/// Whether a value nests at most so deep. Takes no memory.
#[cycle(nests)]
pub fn nests_within(value: &Tree, most: u32) -> bool
    ensures { result ≡ nat_le (depth (data_of value.now)) most }
{
    match value {
        Tree::List(list) => most > 0 && items_nest_within(list.items(), most - 1),
        Tree::Object(object) => most > 0 && members_nest_within(object.members(), most - 1),
        _ => true,
    }
}

#[cycle(nests)]
#[tactic(auto, using(crate::proofs::DepthLemmas::max_within))]
fn items_nest_within(items: &Vec<Tree>, most: u32) -> bool
    ensures { result ≡ nat_le (items_depth (items_of (map data_of items.now.items))) most }
{
    for item in items {
        if !nests_within(item, most) {
            return false;
        }
    }
    true
}

#[cycle(nests)]
#[tactic(auto, using(crate::proofs::DepthLemmas::max_within))]
fn members_nest_within(members: &Vec<Member>, most: u32) -> bool
    ensures { result ≡ nat_le (members_depth (members_of (map pair_of members.now.items))) most }
{
    for member in members {
        if !nests_within(&member.value, most) {
            return false;
        }
    }
    true
}
