//! JSON values.
ghost use Rattle.std.specs.Prelude.{◌≡◌, IfOk, map};
ghost use Rattle.spec_json.specs.Data.{items_of, members_of};
ghost use Rattle.spec_json.specs.SameData.{same_items, same_members};
ghost use Rattle.spec_json.specs.TreeData.{data_of, pair_of};

pub mod depth;
mod edit;
pub mod merge;
mod place;
mod read;

use self::place::{first_value, place_of};
use crate::num::Num;
use crate::text::Text;
use std::alloc::AllocError;
use std::marker::Model;

/// Among so many members a key is found sooner by comparing one behind the other than by a binary search.
const FEW_MEMBERS: usize = 16;

/// A JSON value whose numbers are whole (RFC 8259 section 3). Contracts see the pure data of its parts.
#[cycle(tree)]
#[derive(Drop)]
pub enum Tree {
    /// JSON's `null`.
    Null,
    /// JSON's `true` or `false`.
    Truth(bool),
    /// A number.
    Whole(Num),
    /// A string.
    Text(Text),
    /// An array.
    List(TreeList),
    /// An object.
    Object(TreeObject),
}

/// The items of a JSON array, in order.
#[cycle(tree)]
#[derive(Drop)]
pub struct TreeList {
    items: Vec<Tree>,
}

/// A key of a JSON object and its value.
#[cycle(tree)]
#[derive(Drop)]
pub struct Member {
    pub key: Text,
    pub value: Tree,
}

/// The members of a JSON object. Their keys are distinct and in byte order.
#[cycle(tree)]
#[derive(Drop)]
pub struct TreeObject {
    members: Vec<Member>,
}

impl Model for TreeList {
    ghost use Rattle.std.specs.Prelude.{List, map};
    ghost use Rattle.std.specs.Coded.{coded_list};
    ghost use Rattle.spec_json.specs.Data.{Data, items_of, items_depth};
    ghost use Rattle.spec_json.specs.DataCode.{data_code};

    ghost Value = { List Data };

    ghost coded = { coded_list data_code };

    ghost use Rattle.spec_json.specs.TreeData.{data_of};

    ghost view = { λ a. map data_of a.items.items };

    ghost size = { λ ds. items_depth (items_of ds) };

    ghost use Rattle.std.proofs.Common.{arith};
    ghost use Rattle.spec_json.specs.TreeDepth.{items_fall};

    ghost size_decreases = { λ a h. omega (arith, items_fall a.items.items) };
}

impl Model for TreeObject {
    ghost use Rattle.std.specs.Prelude.{List, map};
    ghost use Rattle.std.specs.Coded.{coded_list};
    ghost use Rattle.spec_json.specs.Data.{Pair, members_of, members_depth};
    ghost use Rattle.spec_json.specs.DataCode.{pair_code};

    ghost Value = { List Pair };

    ghost coded = { coded_list pair_code };

    ghost use Rattle.spec_json.specs.TreeData.{pair_of};
    ghost use Rattle.spec_json.specs.ObjectKeys.{HasOrderedKeys};

    ghost view = { λ a. map pair_of a.members.items };

    ghost invariant = { λ a. HasOrderedKeys (map pair_of a.members.items) };

    ghost size = { λ ps. members_depth (members_of ps) };

    ghost use Rattle.std.proofs.Common.{arith};
    ghost use Rattle.spec_json.specs.TreeDepth.{members_fall};

    ghost size_decreases = { λ a h. omega (arith, members_fall a.members.items) };
}

impl Tree {
    ghost use Rattle.std.specs.Prelude.{option_map};
    ghost use Rattle.spec_json.specs.Data.{field};

    /// The value at a key, where this is an object that has it. Takes no memory.
    #[tactic(auto, using(crate::specs::Data::pairs_back))]
    pub fn get(&self, key: &str) -> Option<&Tree>
        ensures { option_map (λ t. data_of t.now) result ≡ field key.now (data_of self.now) }
    {
        match self {
            Tree::Object(object) => object.get(key),
            _ => None,
        }
    }

    /// Gives up all but the value at a key, where this is an object that has it. Takes no memory.
    #[tactic(auto, using(crate::specs::Data::pairs_back))]
    pub fn into_value(self, key: &str) -> Option<Tree>
        ensures { option_map data_of result ≡ field key.now (data_of self) }
    {
        match self {
            Tree::Object(object) => object.into_value(key),
            _ => None,
        }
    }

    /// Gives an equal tree.
    #[cycle(copy)]
    pub fn copy(&self) -> Result<Tree, AllocError>
        ensures { IfOk result (λ t. t ≡ self.now) }
    {
        match self {
            Tree::Null => Ok(Tree::Null),
            Tree::Truth(truth) => Ok(Tree::Truth(*truth)),
            Tree::Whole(number) => Ok(Tree::Whole(*number)),
            Tree::Text(text) => Ok(Tree::Text(text.copy()?)),
            Tree::List(list) => Ok(Tree::List(list.copy()?)),
            Tree::Object(object) => Ok(Tree::Object(object.copy()?)),
        }
    }
}

impl TreeList {
    ghost use Rattle.std.specs.Prelude.{map};

    /// A list of these trees. Takes no memory.
    pub fn new(items: Vec<Tree>) -> TreeList
        ensures { result ≡ map data_of items.items }
    {
        TreeList { items }
    }

    /// The items. Takes no memory.
    pub fn items(&self) -> &Vec<Tree>
        ensures { map data_of result.now.items ≡ self.now }
    {
        &self.items
    }

    /// Gives the items up. Takes no memory.
    pub fn into_items(self) -> Vec<Tree>
        ensures { map data_of result.items ≡ self }
    {
        self.items
    }

    /// Gives an equal list.
    #[cycle(copy)]
    pub fn copy(&self) -> Result<TreeList, AllocError>
        ensures { IfOk result (λ t. t ≡ self.now) }
    {
        let mut copies = Vec::with_capacity(*self.items.allocator(), self.items.len())?;
        for item in &self.items {
            copies.push(item.copy()?)?;
        }
        Ok(TreeList { items: copies })
    }
}

impl TreeObject {
    ghost use Rattle.std.specs.Prelude.{map, option_map};
    ghost use Rattle.spec_json.specs.Data.{lookup};
    ghost use Rattle.spec_json.specs.TreeData.{pair_of};
    ghost use Rattle.spec_json.specs.ObjectKeys.{HasOrderedKeys};

    /// An object of these members, whose keys are distinct and in byte order. Takes no memory.
    pub fn new(members: Vec<Member>) -> TreeObject
        requires { HasOrderedKeys (map pair_of members.items) }
        ensures { result ≡ map pair_of members.items }
    {
        TreeObject { members }
    }

    /// The members, in byte order of their keys. Takes no memory.
    pub fn members(&self) -> &Vec<Member>
        ensures value { map pair_of result.now.items ≡ self.now }
        ensures ordered { HasOrderedKeys self.now }
    {
        &self.members
    }

    /// Gives the members up, in byte order of their keys. Takes no memory.
    pub fn into_members(self) -> Vec<Member>
        ensures value { map pair_of result.items ≡ self }
        ensures ordered { HasOrderedKeys self }
    {
        self.members
    }

    /// The value at a key. Takes no memory.
    #[tactic(auto, using(crate::proofs::MemberLemmas::found_here, crate::proofs::MemberLemmas::absent_here))]
    pub fn get(&self, key: &str) -> Option<&Tree>
        ensures { option_map (λ t. data_of t.now) result ≡ lookup key.now self.now }
    {
        if self.members.len() <= FEW_MEMBERS {
            return first_value(&self.members, key);
        }
        match place_of(&self.members, key) {
            Ok(i) => Some(&self.members[i].value),
            Err(_) => None,
        }
    }

    /// Gives up all but the value at a key. Takes no memory.
    #[tactic(auto, using(crate::proofs::MemberLemmas::found_here, crate::proofs::MemberLemmas::absent_here))]
    pub fn into_value(self, key: &str) -> Option<Tree>
        ensures { option_map data_of result ≡ lookup key.now self }
    {
        let mut members = self.members;
        match place_of(&members, key) {
            Ok(i) => Some(members.swap_remove(i).value),
            Err(_) => None,
        }
    }

    /// Gives an equal object.
    #[cycle(copy)]
    pub fn copy(&self) -> Result<TreeObject, AllocError>
        ensures { IfOk result (λ t. t ≡ self.now) }
    {
        let mut copies = Vec::with_capacity(*self.members.allocator(), self.members.len())?;
        for member in &self.members {
            let key = member.key.copy()?;
            let value = member.value.copy()?;
            copies.push(Member { key, value })?;
        }
        Ok(TreeObject { members: copies })
    }
}

impl Tree {
    ghost use Rattle.spec_json.specs.SameData.{same_data};

    /// Whether the two are equal. Takes no memory.
    #[cycle(same)]
    pub fn same(&self, other: &Tree) -> bool
        ensures { result ≡ same_data (data_of self.now) (data_of other.now) }
    {
        match (self, other) {
            (Tree::Null, Tree::Null) => true,
            (Tree::Truth(one), Tree::Truth(two)) => *one == *two,
            (Tree::Whole(one), Tree::Whole(two)) => one.get() == two.get(),
            (Tree::Text(one), Tree::Text(two)) => one.as_str() == two.as_str(),
            (Tree::List(one), Tree::List(two)) => one.same(two),
            (Tree::Object(one), Tree::Object(two)) => one.same(two),
            _ => false,
        }
    }
}

impl TreeList {
    /// Whether the two are equal. Takes no memory.
    #[cycle(same)]
    pub fn same(&self, other: &TreeList) -> bool
        ensures { result ≡ same_items (items_of self.now) (items_of other.now) }
    {
        same_trees(&self.items, &other.items)
    }
}

#[cycle(same)]
#[tactic(auto, using(crate::proofs::SameLists::unlike_items, crate::proofs::SameLists::no_items_left))]
fn same_trees(one: &[Tree], two: &[Tree]) -> bool
    ensures { result ≡ same_items (items_of (map data_of one.now)) (items_of (map data_of two.now)) }
{
    if one.len() != two.len() {
        return false;
    }
    for (i, item) in one.iter().enumerate() {
        if !item.same(&two[i]) {
            return false;
        }
    }
    true
}

impl TreeObject {
    /// Whether the two are equal. Takes no memory.
    #[cycle(same)]
    pub fn same(&self, other: &TreeObject) -> bool
        ensures { result ≡ same_members (members_of self.now) (members_of other.now) }
    {
        same_each(&self.members, &other.members)
    }
}

#[cycle(same)]
#[tactic(auto, using(crate::proofs::SameLists::unlike_members, crate::proofs::SameLists::no_members_left))]
fn same_each(one: &[Member], two: &[Member]) -> bool
    ensures { result ≡ same_members (members_of (map pair_of one.now)) (members_of (map pair_of two.now)) }
{
    if one.len() != two.len() {
        return false;
    }
    for (i, member) in one.iter().enumerate() {
        if member.key.as_str() != two[i].key.as_str() || !member.value.same(&two[i].value) {
            return false;
        }
    }
    true
}
