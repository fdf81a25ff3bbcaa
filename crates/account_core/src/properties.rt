//! The properties that a get asks for (RFC 8620 section 5.1).
ghost use Rattle.std.specs.Prelude.{◌≡◌, IfOk, filter, map};
ghost use Rattle.std.specs.List.{list_all};
ghost use Rattle.cal_model.specs.Calendar.{is_calendar_property};
ghost use Rattle.cal_model.specs.Gets.{are_properties, is_asked_for, is_property, selected};
ghost use Rattle.spec_json.specs.TreeData.{data_of, pair_of};

use crate::asked::Asked;
use spec_core::names::is_name;
use spec_history::entry::Kind;
use spec_json::lists::Texts;
use spec_json::text::Text;
use spec_json::tree::{Member, Tree, TreeObject};
use std::alloc::{AllocError, Global};

/// Whether this is the name of a property of calendars (draft JMAP for Calendars).
#[tactic(auto, unfolding(cal_model::specs::Calendar::calendar_table))]
fn is_calendar_property(name: &str) -> bool
    ensures { result ≡ is_calendar_property name.now }
{
    match name {
        "color"
        | "description"
        | "id"
        | "isSubscribed"
        | "isVisible"
        | "name"
        | "resourceZone"
        | "sortOrder"
        | "timeZone" => true,
        _ => false,
    }
}

// A calendar has its properties alone; an event may have any.
fn is_property(kind: Kind, name: &Text) -> bool
    ensures { result ≡ is_property kind name.now }
{
    match kind {
        Kind::Calendar => is_calendar_property(name.as_str()),
        Kind::Event => is_name(name.as_str()),
    }
}

/// Whether all names that are asked for may be those of properties. Takes no memory.
pub fn are_properties(kind: Kind, properties: &Option<Texts>) -> bool
    ensures { result ≡ are_properties kind properties.now }
{
    match properties {
        Some(names) => are_names_of_properties(kind, names.items()),
        None => true,
    }
}

fn are_names_of_properties(kind: Kind, names: &[Text]) -> bool
    ensures { result ≡ list_all (is_property kind) names.now }
{
    names.iter().all(|name| is_property(kind, name))
}

// Copies of those of the members that are asked for, and of `id`.
fn chosen(alloc: Global, asked: &Asked, members: &[Member]) -> Result<Vec<Member>, AllocError>
    ensures { IfOk result (λ v. map pair_of v.items ≡ filter (is_asked_for asked.now) (map pair_of members.now)) }
{
    let mut chosen = Vec::with_capacity(alloc, members.len())?;
    for member in members {
        if asked.has(member.key.as_str()) {
            let key = member.key.copy()?;
            let value = member.value.copy()?;
            chosen.push(Member { key, value })?;
        }
    }
    Ok(chosen)
}

/// A copy of an object with those of its members alone that are asked for, and `id`.
#[tactic(auto, using(property_table::proofs::TableLemmas::rises_filter))]
pub fn select(alloc: Global, asked: &Asked, object: &Tree) -> Result<Tree, AllocError>
    ensures { IfOk result (λ t. data_of t ≡ selected asked.now object.now) }
{
    let members = chosen(alloc, asked, object.members_in())?;
    Ok(Tree::Object(TreeObject::new(members)))
}
