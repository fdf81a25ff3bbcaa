//! Lists that may be absent.
ghost use Rattle.std.specs.Prelude.{◌≡◌, map, option_map};
ghost use Rattle.spec_json.specs.Data.{field};
ghost use Rattle.spec_json.specs.TreeData.{data_of};
ghost use Rattle.spec_site.specs.Configuration.{optional_list};

use spec_json::tree::Tree;

/// The items of the list at a key, and none where there is no value at it, or `null`. Takes no memory.
#[tactic(auto, using(spec_json::specs::Data::items_back))]
pub(crate) fn optional_list_at<'a>(tree: &'a Tree, key: &str) -> Option<&'a [Tree]>
    ensures { option_map (λ items. map data_of items.now) result ≡ optional_list (field key.now (data_of tree.now)) }
{
    match tree.get(key) {
        None | Some(Tree::Null) => Some(&[]),
        Some(Tree::List(list)) => Some(list.items().as_slice()),
        Some(_) => None,
    }
}
