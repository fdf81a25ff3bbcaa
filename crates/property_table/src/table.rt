//! Objects beside a table of properties.
ghost use Rattle.std.specs.Prelude.{◌≡◌, Some, IfOk, OnOk, is_some, map};
ghost use Rattle.spec_json.specs.Data.{lookup};
ghost use Rattle.spec_json.specs.Parts.{members_in};
ghost use Rattle.spec_json.specs.TreeData.{data_of, pair_of};
ghost use Rattle.property_table.specs.OnePass.{failing_keys, fails_given, with_missing};
ghost use Rattle.property_table.specs.Table.{Table, failing_of, given, required_names, test_at};

use crate::names::put_name;
use spec_json::text::Text;
use spec_json::tree::{Member, Tree};
use std::alloc::{AllocError, Global};

/// The properties that an object may have, and what values.
///
/// Contracts see a table: a test of the value for each property, and the tests at all other names.
pub trait PropertyTable {
    ghost table: { Self → Table };

    /// Whether a value passes the test at a name.
    fn passes(&self, name: &str, value: &Tree) -> Result<bool, AllocError>
        ensures { IfOk result (λ b. b ≡ test_at (table self.now) name.now (Some (data_of value.now))) };

    /// The names at which there must be a value. Takes no memory.
    fn required_names(&self) -> &'static [&'static str]
        ensures { map (λ name. name.now) result.now ≡ required_names (table self.now) };
}

/// The names at which an object fails the tests of a table, in byte order. A member that is null counts as left out.
///
/// What is no object counts as one without members. Takes memory for the names.
#[tactic(auto, using(crate::proofs::TableLemmas::one_pass))]
pub fn failing_names<T: PropertyTable>(
    alloc: Global,
    table: &T,
    tree: &Tree,
) -> Result<Vec<Text>, AllocError>
    ensures { IfOk result (λ v. v.items ≡ failing_of (T.table table.now) (data_of tree.now)) }
{
    let mut names = failing_keys(alloc, table, tree.members_in())?;
    add_missing(alloc, tree, table.required_names(), &mut names)?;
    Ok(names)
}

fn failing_keys<T: PropertyTable>(
    alloc: Global,
    table: &T,
    members: &[Member],
) -> Result<Vec<Text>, AllocError>
    ensures { IfOk result (λ v. v.items ≡ failing_keys (T.table table.now) (map pair_of members.now)) }
{
    let mut names = Vec::new(alloc);
    for member in members {
        if fails(table, member)? {
            names.push(member.key.copy()?)?;
        }
    }
    Ok(names)
}

fn fails<T: PropertyTable>(table: &T, member: &Member) -> Result<bool, AllocError>
    ensures { IfOk result (λ b. b ≡ fails_given (T.table table.now) (pair_of member.now)) }
{
    if member.value.is_null() {
        return Ok(false);
    }
    Ok(!table.passes(member.key.as_str(), &member.value)?)
}

fn add_missing(
    alloc: Global,
    tree: &Tree,
    required: &[&str],
    names: &mut Vec<Text>,
) -> Result<(), AllocError>
    ensures { OnOk result (names.new.items ≡ with_missing (given (members_in (data_of tree.now))) (map (λ name. name.now) required.now) names.old.items) }
{
    for name in required {
        if !has_value(tree, name) {
            put_name(names, Text::from_str(alloc, name)?)?;
        }
    }
    Ok(())
}

#[tactic(auto, using(crate::proofs::TableLemmas::value_is))]
fn has_value(tree: &Tree, name: &str) -> bool
    ensures { result ≡ is_some (lookup name.now (given (members_in (data_of tree.now)))) }
{
    let _ordered = tree.members_in();
    match tree.get(name) {
        Some(value) => !value.is_null(),
        None => false,
    }
}
