//! The members that a client gives.
ghost use Rattle.std.specs.Prelude.{◌≡◌, [], None, IfOk, OnOk, false, option_map};
ghost use Rattle.cal_model.specs.Operations.{has_other_id, is_this_text, with_name_if, with_own_id};
ghost use Rattle.cal_model.specs.declared.outcome.Outcome.TheVariants.{Refused};
ghost use Rattle.cal_model.specs.declared.set_error.SetError.TheVariants.{InvalidProperties};
ghost use Rattle.spec_json.specs.Data.{lookup};
ghost use Rattle.spec_json.specs.Parts.{members_in};
ghost use Rattle.spec_json.specs.TreeData.{data_of};
ghost use Rattle.property_table.specs.Table.{given};

use crate::setting::Judged;
use cal_model::set_error::SetError;
use property_table::names::put_name;
use spec_history::entry::Kind;
use spec_json::lists::Texts;
use spec_json::text::Text;
use spec_json::tree::{Tree, TreeObject};
use std::alloc::{AllocError, Global};
use time_text::object_id_text;

/// A copy of an object, without members where this is none.
pub(crate) fn copy_of_object(alloc: Global, tree: &Tree) -> Result<TreeObject, AllocError>
    ensures { IfOk result (λ o. o ≡ members_in (data_of tree.now)) }
{
    match tree.as_object() {
        Some(object) => object.copy(),
        None => Ok(TreeObject::new(Vec::new(alloc))),
    }
}

/// The value at a key, where it isn't null. Takes no memory.
#[tactic(auto, using(crate::proofs::GivenLemmas::given_is))]
pub(crate) fn given_at<'a>(object: &'a TreeObject, key: &str) -> Option<&'a Tree>
    ensures { option_map (λ t. data_of t.now) result ≡ lookup key.now (given object.now) }
{
    let _ordered = object.members();
    match object.get(key) {
        Some(value) if !value.is_null() => Some(value),
        _ => None,
    }
}

/// Whether an object gives an id other than its own.
pub(crate) fn has_other_id(
    alloc: Global,
    kind: Kind,
    number: u64,
    object: &TreeObject,
) -> Result<bool, AllocError>
    ensures { IfOk result (λ b. b ≡ has_other_id kind number object.now) }
{
    match given_at(object, "id") {
        Some(id) => Ok(!is_this_text(id, &object_id_text(alloc, kind, number)?)),
        None => Ok(false),
    }
}

fn is_this_text(value: &Tree, text: &Text) -> bool
    ensures { result ≡ is_this_text (data_of value.now) text.now }
{
    match value {
        Tree::Text(other) => other.as_str() == text.as_str(),
        _ => false,
    }
}

/// An object with the id of this kind and number.
pub(crate) fn with_own_id(
    alloc: Global,
    kind: Kind,
    number: u64,
    object: TreeObject,
) -> Result<Tree, AllocError>
    ensures { IfOk result (λ t. data_of t ≡ with_own_id kind number object) }
{
    let mut object = object;
    let id = object_id_text(alloc, kind, number)?;
    object.put(Text::from_str(alloc, "id")?, Tree::Text(id))?;
    Ok(Tree::Object(object))
}

/// Puts the name of a property that is bad among others.
pub(crate) fn note_if(
    alloc: Global,
    is_bad: bool,
    name: &str,
    names: &mut Vec<Text>,
) -> Result<(), AllocError>
    ensures { OnOk result (names.new.items ≡ with_name_if is_bad name.now names.old.items) }
{
    if is_bad {
        put_name(names, Text::from_str(alloc, name)?)?;
    }
    Ok(())
}

/// An object that is refused for these properties.
pub(crate) fn refused_for(names: Vec<Text>) -> Judged
    ensures { result ≡ record { outcome = Refused (InvalidProperties names.items); size = 0; series = None } }
{
    Judged::refused(SetError::InvalidProperties {
        properties: Texts::new(names),
    })
}
