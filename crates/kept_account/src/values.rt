//! What the types of a program say of the changes and entries that it has. Laws: they go over them, and do nothing.
ghost use Rattle.std.specs.Prelude.{All, IfSome, map};
ghost use Rattle.kept_account.specs.Values.{IsChangeValue, IsEntryValue};
ghost use Rattle.spec_json.specs.Data.{items_of, members_of};
ghost use Rattle.spec_json.specs.Fit.{AreFit, IsFit, MembersAreFit};
ghost use Rattle.spec_json.specs.TreeData.{data_of, pair_of};
ghost use Rattle.spec_json.specs.WholeNumber.{IsWhole};

use spec_history::entry::{Change, Entry};
use spec_json::num::Num;
use spec_json::tree::{Member, Tree};

/// The numbers of these entries are in range, and the keys in their objects are distinct and in byte order. Takes no memory.
pub fn are_entry_values(entries: &[Entry])
    ensures { All IsEntryValue entries.now }
{
    for entry in entries {
        is_entry_value(entry);
    }
}

fn is_entry_value(entry: &Entry)
    ensures { IsEntryValue entry.now }
{
    let _author = entry.author;
    let _part = entry.part;
    let _moment = entry.moment.seconds();
    is_object_fit(&entry.change.object);
}

/// The keys in the objects of these changes are distinct and in byte order. Takes no memory.
pub(crate) fn are_change_values(changes: &[Change])
    ensures { All IsChangeValue changes.now }
{
    for change in changes {
        is_object_fit(&change.object);
    }
}

fn is_object_fit(object: &Option<Tree>)
    ensures { IfSome object.now (λ t. IsFit (data_of t)) }
{
    match object {
        Some(tree) => is_fit(tree),
        None => {}
    }
}

#[cycle(fit)]
#[tactic(auto, using(spec_json::specs::TreeDepth::item_falls, spec_json::specs::TreeDepth::member_falls, spec_json::specs::Data::pairs_back))]
fn is_fit(tree: &Tree)
    ensures { IsFit (data_of tree.now) }
{
    match tree {
        Tree::Whole(number) => is_whole(number),
        Tree::List(list) => are_items_fit(list.items()),
        Tree::Object(object) => are_members_fit(object.members()),
        _ => {}
    }
}

#[cycle(fit)]
#[tactic(auto, using(spec_json::specs::TreeDepth::item_falls, spec_json::specs::TreeDepth::member_falls, spec_json::specs::Data::pairs_back))]
fn are_items_fit(items: &Vec<Tree>)
    ensures { AreFit (items_of (map data_of items.now.items)) }
{
    for item in items {
        is_fit(item);
    }
}

#[cycle(fit)]
#[tactic(auto, using(spec_json::specs::TreeDepth::item_falls, spec_json::specs::TreeDepth::member_falls, spec_json::specs::Data::pairs_back))]
fn are_members_fit(members: &Vec<Member>)
    ensures { MembersAreFit (members_of (map pair_of members.now.items)) }
{
    for member in members {
        is_fit(&member.value);
    }
}

fn is_whole(number: &Num)
    ensures { IsWhole number.now }
{
    let _value = number.get();
}
