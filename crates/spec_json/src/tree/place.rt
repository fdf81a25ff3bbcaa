//! Where a member stands in an object.
ghost use Rattle.std.specs.Prelude.{◌≡◌, IfErr, IfOk, IsTrue, length, map, option_map};
ghost use Rattle.std.specs.List.Sorted.{IsSearchInRange};
ghost use Rattle.spec_json.specs.Data.{lookup};
ghost use Rattle.spec_json.specs.ObjectKeys.{HasOrderedKeys};
ghost use Rattle.spec_json.specs.Place.{is_gap_at, is_key_at};
ghost use Rattle.spec_json.specs.TreeData.{data_of, pair_of};

use super::{Member, Tree};

// The place of the member with this key, or else the place at which one would go in.
pub(super) fn place_of(members: &[Member], key: &str) -> Result<usize, usize>
    requires { HasOrderedKeys (map pair_of members.now) }
    ensures bound { IsSearchInRange result (length members.now) }
    ensures found { IfOk result (λ i. IsTrue (is_key_at i key.now members.now)) }
    ensures absent { IfErr result (λ i. IsTrue (is_gap_at i key.now members.now)) }
{
    members.binary_search_by(|member| member.key.as_str().cmp(key))
}

// The value of the first member with this key, found by looking at one behind the other.
pub(super) fn first_value<'a>(members: &'a [Member], key: &str) -> Option<&'a Tree>
    ensures { option_map (λ t. data_of t.now) result ≡ lookup key.now (map pair_of members.now) }
{
    for member in members {
        if member.key.as_str() == key {
            return Some(&member.value);
        }
    }
    None
}
