//! Whether an event recurs.
ghost use Rattle.std.specs.Prelude.{◌≡◌, ◌==◌, codes, length};
ghost use Rattle.spec_events.specs.Events.{has_recurrence, is_more_than};
ghost use Rattle.spec_events.specs.Values.{is_empty_list, is_empty_object};
ghost use Rattle.spec_json.specs.Data.{field};
ghost use Rattle.spec_json.specs.TreeData.{data_of};

use spec_json::tree::{Tree, TreeList, TreeObject};

/// Whether an object has rules of recurrence or overrides (RFC 8984 sections 4.3.3 and 4.3.5). Takes no memory.
///
/// Null and an empty list are no rules, null and an empty object no overrides.
pub fn has_recurrence(tree: &Tree) -> bool
    ensures { result ≡ has_recurrence (data_of tree.now) }
{
    has_rules(tree) || has_overrides(tree)
}

fn has_rules(tree: &Tree) -> bool
    ensures { result ≡ is_more_than is_empty_list (field (codes "recurrenceRules") (data_of tree.now)) }
{
    match tree.get("recurrenceRules") {
        Some(rules) => !rules.is_null() && !is_empty_list(rules),
        None => false,
    }
}

fn has_overrides(tree: &Tree) -> bool
    ensures { result ≡ is_more_than is_empty_object (field (codes "recurrenceOverrides") (data_of tree.now)) }
{
    match tree.get("recurrenceOverrides") {
        Some(overrides) => !overrides.is_null() && !is_empty_object(overrides),
        None => false,
    }
}

/// Whether a value is a list without items.
#[tactic(auto, using(spec_json::specs::Data::items_back))]
pub(crate) fn is_empty_list(value: &Tree) -> bool
    ensures { result ≡ is_empty_list (data_of value.now) }
{
    match value {
        Tree::List(list) => has_no_items(list),
        _ => false,
    }
}

fn has_no_items(list: &TreeList) -> bool
    ensures { result ≡ (length list.now == 0) }
{
    list.items().is_empty()
}

#[tactic(auto, using(spec_json::specs::Data::pairs_back))]
fn is_empty_object(value: &Tree) -> bool
    ensures { result ≡ is_empty_object (data_of value.now) }
{
    match value {
        Tree::Object(object) => has_no_members(object),
        _ => false,
    }
}

fn has_no_members(object: &TreeObject) -> bool
    ensures { result ≡ (length object.now == 0) }
{
    object.members().is_empty()
}
