//! Members put into an object and taken out of it.
ghost use Rattle.std.specs.Prelude.{◌≡◌, OnOk, OnErr, map, option_map};
ghost use Rattle.spec_json.specs.Data.{lookup};
ghost use Rattle.spec_json.specs.Edit.{ChangesOnlyAt, with_pair, without};
ghost use Rattle.spec_json.specs.ObjectKeys.{HasOrderedKeys};
ghost use Rattle.spec_json.specs.TreeData.{data_of, pair_of};

use super::place::place_of;
use super::{Member, Tree, TreeObject};
use crate::text::Text;
use std::alloc::AllocError;

impl TreeObject {
    /// Puts a value at a key, in the place of one that stands there.
    ///
    /// Takes memory for a new member.
    #[tactic(auto, using(crate::proofs::EditLemmas::rises_with))]
    pub fn put(&mut self, key: Text, value: Tree) -> Result<(), AllocError>
        ensures ok { OnOk result (self.new ≡ with_pair key (data_of value) self.old) }
        ensures err { OnErr result (self.new ≡ self.old) }
    {
        put_member(&mut self.members, key, value)
    }

    /// Takes out the value at a key. Takes no memory.
    #[tactic(auto, using(crate::proofs::EditLemmas::rises_without, crate::proofs::EditLemmas::lookup_without))]
    pub fn take(&mut self, key: &str) -> Option<Tree>
        ensures value { option_map data_of result ≡ lookup key.now self.old }
        ensures rest { self.new ≡ without key.now self.old }
        ensures others { ChangesOnlyAt key.now self.old self.new }
        ensures was_ordered { HasOrderedKeys self.old }
    {
        take_member(&mut self.members, key)
    }
}

#[tactic(auto, using(crate::proofs::MemberLemmas::put_here, crate::proofs::MemberLemmas::insert_here))]
fn put_member(members: &mut Vec<Member>, key: Text, value: Tree) -> Result<(), AllocError>
    requires { HasOrderedKeys (map pair_of members.old.items) }
    ensures ok { OnOk result (map pair_of members.new.items ≡ with_pair key (data_of value) (map pair_of members.old.items)) }
    ensures err { OnErr result (map pair_of members.new.items ≡ map pair_of members.old.items) }
{
    match place_of(members, key.as_str()) {
        Ok(i) => members[i].value = value,
        Err(i) => members.insert(i, Member { key, value })?,
    }
    Ok(())
}

#[tactic(auto, using(crate::proofs::MemberLemmas::found_here, crate::proofs::MemberLemmas::absent_here, crate::proofs::MemberLemmas::take_here, crate::proofs::MemberLemmas::nothing_here))]
fn take_member(members: &mut Vec<Member>, key: &str) -> Option<Tree>
    requires { HasOrderedKeys (map pair_of members.old.items) }
    ensures value { option_map data_of result ≡ lookup key.now (map pair_of members.old.items) }
    ensures rest { map pair_of members.new.items ≡ without key.now (map pair_of members.old.items) }
{
    match place_of(members, key) {
        Ok(i) => Some(members.remove(i).value),
        Err(_) => None,
    }
}
