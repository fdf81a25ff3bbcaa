//! The members of an object, edited at one place after another.
ghost use Rattle.std.specs.Prelude.{◌≡◌, ◌++◌, IfOk, OnOk, map, option_map};
ghost use Rattle.spec_json.specs.Data.{lookup};
ghost use Rattle.spec_json.specs.Edit.{with_pair, without};
ghost use Rattle.spec_json.specs.Merge.{without_first};
ghost use Rattle.spec_json.specs.ObjectKeys.{HasOrderedKeys};
ghost use Rattle.spec_json.specs.TreeData.{data_of, pair_of};
ghost use Rattle.patch_object.specs.Cursor.{IsParted, TakesFrom, first_at};

use spec_json::text::Text;
use spec_json::tree::merge::pop_below;
use spec_json::tree::{Member, Tree, TreeObject};
use std::alloc::AllocError;
use std::collections::VecDeque;
use std::marker::Model;

/// The members of an object, parted at the place that was edited last. Contracts see all of them, in order.
///
/// The next edit moves what stands between the two places, member by member. So edits in byte order of their keys go over an object once.
#[derive(Drop)]
pub(crate) struct Cursor {
    before: Vec<Member>,
    behind: VecDeque<Member>,
}

impl Model for Cursor {
    ghost use Rattle.std.specs.Prelude.{List, ◌++◌, map};
    ghost use Rattle.std.specs.Coded.{coded_list};
    ghost use Rattle.spec_json.specs.Data.{Pair};
    ghost use Rattle.spec_json.specs.DataCode.{pair_code};
    ghost use Rattle.spec_json.specs.ObjectKeys.{HasOrderedKeys};
    ghost use Rattle.spec_json.specs.TreeData.{pair_of};

    ghost Value = { List Pair };

    ghost coded = { coded_list pair_code };

    ghost view = { λ a. map pair_of a.before.items ++ map pair_of a.behind.items };

    ghost invariant = { λ a. HasOrderedKeys (map pair_of a.before.items ++ map pair_of a.behind.items) };
}

impl Cursor {
    /// Stands before the first member. Takes no memory.
    pub(crate) fn new(object: TreeObject) -> Cursor
        ensures { result ≡ object }
    {
        let members = object.into_members();
        Cursor {
            before: Vec::new(*members.allocator()),
            behind: VecDeque::from(members),
        }
    }

    /// Gives the object back. Takes memory for the list of members.
    pub(crate) fn into_object(self) -> Result<TreeObject, AllocError>
        ensures { IfOk result (λ o. o ≡ self) }
    {
        let mut members = self.before;
        members.append(&mut Vec::from(self.behind))?;
        Ok(TreeObject::new(members))
    }

    /// Puts a value at a key, in the place of one that stands there. Takes memory for the list of members.
    #[tactic(auto, using(crate::proofs::CursorLemmas::with_parted, crate::proofs::CursorLemmas::rises_with_parted))]
    pub(crate) fn put(self, key: Text, value: Tree) -> Result<Cursor, AllocError>
        ensures { IfOk result (λ c. c ≡ with_pair key (data_of value) self) }
    {
        let mut before = self.before;
        let mut behind = self.behind;
        seek(&mut before, &mut behind, &key)?;
        take_first(&mut behind, &key);
        behind.push_front(Member { key, value })?;
        Ok(Cursor { before, behind })
    }

    /// Takes out the value at a key. Takes memory for the list of members.
    #[tactic(auto, using(crate::proofs::CursorLemmas::without_parted, crate::proofs::CursorLemmas::lookup_parted, crate::proofs::CursorLemmas::rises_without_parted))]
    pub(crate) fn take(self, key: &Text) -> Result<(Cursor, Option<Tree>), AllocError>
        ensures value { IfOk result (λ r. option_map data_of r.1 ≡ lookup key.now self) }
        ensures rest { IfOk result (λ r. r.0 ≡ without key.now self) }
        ensures ordered { HasOrderedKeys self }
    {
        let mut before = self.before;
        let mut behind = self.behind;
        seek(&mut before, &mut behind, key)?;
        let value = take_first(&mut behind, key);
        Ok((Cursor { before, behind }, value))
    }
}

// Parts the members at the place of a key.
fn seek(
    before: &mut Vec<Member>,
    behind: &mut VecDeque<Member>,
    key: &Text,
) -> Result<(), AllocError>
    requires { HasOrderedKeys (map pair_of before.old.items ++ map pair_of behind.old.items) }
    ensures same { OnOk result (map pair_of before.new.items ++ map pair_of behind.new.items ≡ map pair_of before.old.items ++ map pair_of behind.old.items) }
    ensures parted { OnOk result (IsParted key.now (map pair_of before.new.items) (map pair_of behind.new.items)) }
{
    while let Some(member) = pop_from(before, key) {
        behind.push_front(member)?;
    }
    while let Some(member) = pop_below(behind, key) {
        before.push(member)?;
    }
    Ok(())
}

// Takes out the last member, where its key isn't below this one.
#[tactic(auto, using(crate::proofs::CursorLemmas::all_below_last, crate::proofs::CursorLemmas::all_below_none))]
fn pop_from(members: &mut Vec<Member>, key: &Text) -> Option<Member>
    requires { HasOrderedKeys (map pair_of members.old.items) }
    ensures { TakesFrom key.now (option_map pair_of result) (map pair_of members.old.items) (map pair_of members.new.items) }
{
    let is_from = match members.last() {
        Some(member) => member.key.as_str() >= key.as_str(),
        None => false,
    };
    if is_from { members.pop() } else { None }
}

// Takes out the value of the first member, where it has this key.
fn take_first(members: &mut VecDeque<Member>, key: &Text) -> Option<Tree>
    ensures value { option_map data_of result ≡ first_at key.now (map pair_of members.old.items) }
    ensures rest { map pair_of members.new.items ≡ without_first key.now (map pair_of members.old.items) }
{
    let has_key = match members.front() {
        Some(member) => member.key.as_str() == key.as_str(),
        None => false,
    };
    if has_key {
        members.pop_front().map(|member| member.value)
    } else {
        None
    }
}
