//! The members of conditions and operators.
ghost use Rattle.std.specs.Prelude.{◌≡◌, Some, map, option_map};
ghost use Rattle.spec_events.specs.Values.{is_start};
ghost use Rattle.spec_filters.specs.Members.{condition_table, given_at, has_bad_member, has_other_than};
ghost use Rattle.spec_json.specs.TreeData.{data_of, pair_of};
ghost use Rattle.property_table.specs.OnePass.{fails_given};
ghost use Rattle.property_table.specs.Table.{test_at};
ghost use Rattle.property_table.specs.Values.{is_text_that};

use property_table::names::has_name;
use property_table::values::is_text;
use single_event::times::is_start as names_start;
use spec_json::tree::{Member, Tree, TreeObject};

/// The members of a condition.
pub(crate) const CONDITION_NAMES: [&str; 8] = [
    "inCalendar",
    "after",
    "before",
    "title",
    "text",
    "uid",
    "participant",
    "participationStatus",
];

/// Those that ask when an event is.
pub(crate) const TIME_NAMES: [&str; 2] = ["after", "before"];

/// The members of an operator.
pub(crate) const OPERATOR_NAMES: [&str; 2] = ["operator", "conditions"];

/// The value of a member that isn't null. Takes no memory.
pub(crate) fn given<'a>(object: &'a TreeObject, key: &str) -> Option<&'a Tree>
    ensures { option_map (λ t. data_of t.now) result ≡ given_at key.now object.now }
{
    let value = object.get(key)?;
    if value.is_null() { None } else { Some(value) }
}

/// Whether some member of a condition has a value of a wrong kind. Takes no memory.
pub(crate) fn has_bad_member(object: &TreeObject) -> bool
    ensures { result ≡ has_bad_member object.now }
{
    any_fails(object.members())
}

fn any_fails(members: &[Member]) -> bool
    ensures { result ≡ has_bad_member (map pair_of members.now) }
{
    for member in members {
        if fails(member) {
            return true;
        }
    }
    false
}

fn fails(member: &Member) -> bool
    ensures { result ≡ fails_given condition_table (pair_of member.now) }
{
    !member.value.is_null() && !passes(member.key.as_str(), &member.value)
}

#[tactic(auto, unfolding(spec_filters::specs::Members::condition_table))]
fn passes(name: &str, value: &Tree) -> bool
    ensures { result ≡ test_at condition_table name.now (Some (data_of value.now)) }
{
    match name {
        "inCalendar" => is_text(value),
        "after" | "before" => is_start(value),
        "title" | "text" | "uid" | "participant" | "participationStatus" => is_text(value),
        _ => true,
    }
}

fn is_start(value: &Tree) -> bool
    ensures { result ≡ is_text_that is_start (data_of value.now) }
{
    match value {
        Tree::Text(text) => names_start(text.as_str().as_bytes()),
        _ => false,
    }
}

/// Whether some member that isn't null has none of these names. Takes no memory.
pub(crate) fn has_other_than(names: &[&str], object: &TreeObject) -> bool
    ensures { result ≡ has_other_than (map (λ n. n.now) names.now) object.now }
{
    any_other_than(names, object.members())
}

fn any_other_than(names: &[&str], members: &[Member]) -> bool
    ensures { result ≡ has_other_than (map (λ n. n.now) names.now) (map pair_of members.now) }
{
    for member in members {
        if !member.value.is_null() && !has_name(names, member.key.as_str()) {
            return true;
        }
    }
    false
}
