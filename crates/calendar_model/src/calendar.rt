//! A calendar.
ghost use Rattle.std.specs.Prelude.{◌≡◌, ◌∷◌, [], IfOk, codes, map, option_map};
ghost use Rattle.cal_model.specs.Calendar.{stored, text_or_null};
ghost use Rattle.spec_json.specs.Data.{text, truth, whole};
ghost use Rattle.spec_json.specs.TreeData.{data_of, keyed};
ghost use Rattle.spec_json.specs.declared.tree.Tree.TheVariants.{Object};

use spec_json::num::Num;
use spec_json::text::Text;
use spec_json::tree::Tree;
use std::alloc::{AllocError, Global};
use std::marker::Model;

/// A calendar. Contracts see its properties.
#[derive(Drop)]
pub struct Calendar {
    pub(crate) id: Text,
    pub(crate) name: Text,
    pub(crate) description: Option<Text>,
    pub(crate) color: Option<Text>,
    pub(crate) sort_order: Num,
    pub(crate) is_subscribed: bool,
    pub(crate) is_visible: bool,
    pub(crate) time_zone: Option<Text>,
    pub(crate) resource_zone: Option<Text>,
}

impl Model for Calendar {
    ghost use Rattle.cal_model.specs.Calendar.{CalendarProperties};

    ghost Value = { CalendarProperties };

    ghost view = { λ a. record { id = a.id; name = a.name; description = a.description; color = a.color; sort_order = a.sort_order; is_subscribed = a.is_subscribed; is_visible = a.is_visible; time_zone = a.time_zone; resource_zone = a.resource_zone } };
}

impl Calendar {
    /// The zone of the resource that the calendar is of, none where it is of no resource. Takes no memory.
    pub fn resource_zone(&self) -> Option<&Text>
        ensures { option_map (λ zone. zone.now) result ≡ self.now.resource_zone }
    {
        self.resource_zone.as_ref()
    }

    /// The object that is stored, with all nine properties. Takes memory for it.
    pub fn tree(&self, alloc: Global) -> Result<Tree, AllocError>
        ensures { IfOk result (λ t. t ≡ Object (stored self.now)) }
    {
        let mut members = leading(alloc, self)?;
        members.append(&mut trailing(alloc, self)?)?;
        Tree::object(alloc, members)
    }
}

// The properties up to whether it is visible, in byte order of their names.
fn leading(alloc: Global, calendar: &Calendar) -> Result<Vec<(&'static str, Tree)>, AllocError>
    ensures { IfOk result (λ ms. map keyed ms.items ≡
        (codes "color", text_or_null calendar.now.color)
        ∷ (codes "description", text_or_null calendar.now.description)
        ∷ (codes "id", text calendar.now.id)
        ∷ (codes "isSubscribed", truth calendar.now.is_subscribed)
        ∷ (codes "isVisible", truth calendar.now.is_visible) ∷ []) }
{
    let color = text_or_null(&calendar.color)?;
    let description = text_or_null(&calendar.description)?;
    let id = Tree::Text(calendar.id.copy()?);
    Ok(vec![in alloc;
        ("color", color),
        ("description", description),
        ("id", id),
        ("isSubscribed", Tree::Truth(calendar.is_subscribed)),
        ("isVisible", Tree::Truth(calendar.is_visible)),
    ]?)
}

// The properties after whether it is visible, in byte order of their names.
fn trailing(alloc: Global, calendar: &Calendar) -> Result<Vec<(&'static str, Tree)>, AllocError>
    ensures { IfOk result (λ ms. map keyed ms.items ≡
        (codes "name", text calendar.now.name)
        ∷ (codes "resourceZone", text_or_null calendar.now.resource_zone)
        ∷ (codes "sortOrder", whole calendar.now.sort_order)
        ∷ (codes "timeZone", text_or_null calendar.now.time_zone) ∷ []) }
{
    let name = Tree::Text(calendar.name.copy()?);
    let resource_zone = text_or_null(&calendar.resource_zone)?;
    let time_zone = text_or_null(&calendar.time_zone)?;
    Ok(vec![in alloc;
        ("name", name),
        ("resourceZone", resource_zone),
        ("sortOrder", Tree::Whole(calendar.sort_order)),
        ("timeZone", time_zone),
    ]?)
}

fn text_or_null(text: &Option<Text>) -> Result<Tree, AllocError>
    ensures { IfOk result (λ t. data_of t ≡ text_or_null text.now) }
{
    match text {
        Some(text) => Ok(Tree::Text(text.copy()?)),
        None => Ok(Tree::Null),
    }
}
