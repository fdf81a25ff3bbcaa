//! The part of an event that a patch looks at.
ghost use Rattle.std.specs.Prelude.{◌≡◌, [], IfOk, OnOk, Some, map};
ghost use Rattle.spec_json.specs.Parts.{members_in};
ghost use Rattle.spec_json.specs.Pointer.{parts};
ghost use Rattle.spec_json.specs.TreeData.{data_of, pair_of};
ghost use Rattle.property_table.specs.Names.{has_name as is_name_of};
ghost use Rattle.overrides.specs.Parts.{always_needed, are_all_needed, first_part, firsts_of, is_needed, part_with, with_member, with_each_member};

use patch_object::{Pointer, PointerError};
use property_table::names::has_name;
use spec_json::text::Text;
use spec_json::tree::{Member, Tree, TreeObject};
use std::alloc::{AllocError, Global};

/// The first parts of the keys of a patch.
pub(crate) fn firsts_of(alloc: Global, patch: &[Member]) -> Result<Vec<Text>, AllocError>
    ensures { IfOk result (λ v. v.items ≡ firsts_of (map pair_of patch.now)) }
{
    let mut firsts = Vec::new(alloc);
    for member in patch {
        if let Some(first) = first_part(alloc, &member.key)? {
            firsts.push(first)?;
        }
    }
    Ok(firsts)
}

fn first_part(alloc: Global, key: &Text) -> Result<Option<Text>, AllocError>
    ensures { IfOk result (λ o. o ≡ first_part (parts key.now)) }
{
    match Pointer::read(alloc, key) {
        Ok(pointer) => copy_first(pointer.parts()),
        Err(PointerError::BadEscape) => Ok(None),
        Err(PointerError::NoMemory) => Err(AllocError),
    }
}

fn copy_first(parts: &[Text]) -> Result<Option<Text>, AllocError>
    ensures { IfOk result (λ o. o ≡ first_part (Some parts.now)) }
{
    match parts.first() {
        Some(part) => Ok(Some(part.copy()?)),
        None => Ok(None),
    }
}

/// What an event must have, and what says when it is and whether it takes up the time.
fn always_needed() -> &'static [&'static str]
    ensures { map (λ name. name.now) result.now ≡ always_needed }
{
    &[
        "uid",
        "calendarIds",
        "start",
        "duration",
        "status",
        "freeBusyStatus",
    ]
}

/// The members of an event that are needed, whatever a patch changes. Takes memory for copies of them.
pub(crate) fn always_part(alloc: Global, event: &Tree) -> Result<TreeObject, AllocError>
    ensures { IfOk result (λ o. o ≡ part_with [] (members_in (data_of event.now))) }
{
    let _ordered = event.members_in();
    let mut part = TreeObject::new(Vec::new(alloc));
    put_names(alloc, event, always_needed(), &mut part)?;
    Ok(part)
}

/// The members of an event that are needed, where a patch has these first parts and `needed` are those that always are.
///
/// No other is looked up, so the time grows with the patch and not with the event. Takes memory for copies of them.
pub(crate) fn part_of(
    alloc: Global,
    event: &Tree,
    needed: &TreeObject,
    firsts: &[Text],
) -> Result<TreeObject, AllocError>
    requires { needed.now ≡ part_with [] (members_in (data_of event.now)) }
    ensures { IfOk result (λ o. o ≡ part_with firsts.now (members_in (data_of event.now))) }
{
    let _ordered = event.members_in();
    let mut part = needed.copy()?;
    put_firsts(alloc, event, firsts, &mut part)?;
    Ok(part)
}

fn put_names(
    alloc: Global,
    event: &Tree,
    names: &[&str],
    part: &mut TreeObject,
) -> Result<(), AllocError>
    ensures { OnOk result (part.new ≡ with_each_member (map (λ name. name.now) names.now) (members_in (data_of event.now)) part.old) }
{
    for name in names {
        put_member(alloc, event, name, part)?;
    }
    Ok(())
}

fn put_firsts(
    alloc: Global,
    event: &Tree,
    firsts: &[Text],
    part: &mut TreeObject,
) -> Result<(), AllocError>
    ensures { OnOk result (part.new ≡ with_each_member firsts.now (members_in (data_of event.now)) part.old) }
{
    for first in firsts {
        put_member(alloc, event, first.as_str(), part)?;
    }
    Ok(())
}

// Puts the event's member of a name into the part, where it isn't there yet.
fn put_member(
    alloc: Global,
    event: &Tree,
    name: &str,
    part: &mut TreeObject,
) -> Result<(), AllocError>
    ensures { OnOk result (part.new ≡ with_member name.now (members_in (data_of event.now)) part.old) }
{
    if part.get(name).is_some() {
        return Ok(());
    }
    if let Some(value) = event.get(name) {
        part.put(Text::from_str(alloc, name)?, value.copy()?)?;
    }
    Ok(())
}

/// Whether all of these names are needed, where a patch has these first parts. Takes no memory.
#[tactic(auto, unfolding(crate::specs::Parts::are_all_needed))]
pub(crate) fn are_needed(firsts: &[Text], names: &[Text]) -> bool
    ensures { result ≡ are_all_needed firsts.now names.now }
{
    for name in names {
        if !is_needed(firsts, name.as_str()) {
            return false;
        }
    }
    true
}

fn is_needed(firsts: &[Text], name: &str) -> bool
    ensures { result ≡ is_needed firsts.now name.now }
{
    has_name(always_needed(), name) || is_first(firsts, name)
}

fn is_first(firsts: &[Text], name: &str) -> bool
    ensures { result ≡ is_name_of firsts.now name.now }
{
    for first in firsts {
        if first.as_str() == name {
            return true;
        }
    }
    false
}
