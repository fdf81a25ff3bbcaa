//! What the reply to a set tells of objects that were refused (RFC 8620 section 5.3).
ghost use Rattle.std.specs.Prelude.{◌≡◌, [], IfOk, codes, length, map};
ghost use Rattle.std.specs.Option.{option_map_or};
ghost use Rattle.cal_model.specs.SetErrors.{set_error};
ghost use Rattle.cal_model.specs.SetReply.{object_or_null, refused_member};
ghost use Rattle.cal_model.specs.Sets.{of_each};
ghost use Rattle.cal_model.specs.declared.set_error.SetError.TheVariants.{Clashes};
ghost use Rattle.spec_history.specs.ObjectId.{id_text};
ghost use Rattle.spec_history.specs.declared.entry.Kind.TheVariants.{Event as event_kind};
ghost use Rattle.spec_json.specs.Data.{null, text};
ghost use Rattle.spec_json.specs.TreeData.{data_of, pair_of};

use crate::named_id::NamedId;
use crate::parts::object_or_null;
use cal_model::outcome::Outcome;
use cal_model::set_error::SetError;
use object_outcomes::texts::{copies, text_list};
use spec_bookings::clash::Clash;
use spec_history::entry::Kind;
use spec_json::num::Num;
use spec_json::text::Text;
use spec_json::tree::{Member, Tree};
use std::alloc::{AllocError, Global};
use time_text::object_id_text;

/// What is told of the creates or updates that were refused, under the texts of the call.
pub(crate) fn refused(
    alloc: Global,
    members: &[Member],
    outcomes: &[Outcome],
) -> Result<Tree, AllocError>
    requires { length members.now ≡ length outcomes.now }
    ensures { IfOk result (λ t. data_of t ≡ object_or_null (of_each refused_member (map pair_of members.now) outcomes.now)) }
{
    object_or_null(alloc, refused_members(alloc, members, outcomes)?)
}

/// What is told of the destroys that were refused, under the texts of the call.
pub(crate) fn not_destroyed(
    alloc: Global,
    named: &[NamedId<'_>],
    outcomes: &[Outcome],
) -> Result<Tree, AllocError>
    requires { length named.now ≡ length outcomes.now }
    ensures { IfOk result (λ t. data_of t ≡ object_or_null (of_each refused_member named.now outcomes.now)) }
{
    object_or_null(alloc, refused_destroys(alloc, named, outcomes)?)
}

fn refused_members(
    alloc: Global,
    members: &[Member],
    outcomes: &[Outcome],
) -> Result<Vec<Member>, AllocError>
    requires { length members.now ≡ length outcomes.now }
    ensures { IfOk result (λ v. map pair_of v.items ≡ of_each refused_member (map pair_of members.now) outcomes.now) }
{
    let mut refused = Vec::new(alloc);
    for (i, member) in members.iter().enumerate() {
        match &outcomes[i] {
            Outcome::Accepted(_) => {}
            Outcome::Refused(error) => refused.push(refused_member(alloc, &member.key, error)?)?,
        }
    }
    Ok(refused)
}

fn refused_destroys(
    alloc: Global,
    named: &[NamedId<'_>],
    outcomes: &[Outcome],
) -> Result<Vec<Member>, AllocError>
    requires { length named.now ≡ length outcomes.now }
    ensures { IfOk result (λ v. map pair_of v.items ≡ of_each refused_member named.now outcomes.now) }
{
    let mut refused = Vec::new(alloc);
    for (i, named) in named.iter().enumerate() {
        match &outcomes[i] {
            Outcome::Accepted(_) => {}
            Outcome::Refused(error) => refused.push(refused_member(alloc, named.text(), error)?)?,
        }
    }
    Ok(refused)
}

fn refused_member(alloc: Global, text: &Text, error: &SetError) -> Result<Member, AllocError>
    ensures { IfOk result (λ m. pair_of m ≡ (text.now, set_error error.now)) }
{
    let key = text.copy()?;
    let value = set_error_tree(alloc, error)?;
    Ok(Member { key, value })
}

// The error as clients see it.
fn set_error_tree(alloc: Global, error: &SetError) -> Result<Tree, AllocError>
    ensures { IfOk result (λ t. data_of t ≡ set_error error.now) }
{
    let name = Tree::Text(Text::from_str(alloc, error.name())?);
    match error {
        SetError::InvalidPatch { key } => {
            let key = Tree::Text(key.copy()?);
            Tree::object(alloc, vec![in alloc; ("key", key), ("type", name)]?)
        }
        SetError::InvalidProperties { properties } => {
            let properties = text_list(alloc, copies(alloc, properties.items())?)?;
            Tree::object(
                alloc,
                vec![in alloc; ("properties", properties), ("type", name)]?,
            )
        }
        SetError::Clashes { calendar, clash } => clash_tree(alloc, *calendar, clash, name),
        SetError::NotFound
        | SetError::WillDestroy
        | SetError::CalendarHasEvent
        | SetError::OverQuota
        | SetError::Forbidden => { Tree::object(alloc, vec![in alloc; ("type", name)]?) }
    }
}

// The error of this name where an event would clash in a resource calendar.
fn clash_tree(alloc: Global, calendar: u64, clash: &Clash, name: Tree) -> Result<Tree, AllocError>
    requires { data_of name ≡ text (codes "clash") }
    ensures { IfOk result (λ t. data_of t ≡ set_error (Clashes calendar clash.now)) }
{
    let calendar = Tree::Text(object_id_text(alloc, Kind::Calendar, calendar)?);
    let with = event_or_null(alloc, clash.with)?;
    let members = vec![in alloc;
        ("calendarId", calendar),
        ("day", Tree::Whole(Num::new(clash.day as i128))),
        ("second", Tree::Whole(Num::new(clash.second as i128))),
        ("type", name),
        ("with", with),
    ]?;
    Tree::object(alloc, members)
}

// The id of an event, null where there is none.
fn event_or_null(alloc: Global, number: Option<u64>) -> Result<Tree, AllocError>
    ensures { IfOk result (λ t. data_of t ≡ option_map_or (λ n. text (id_text event_kind n)) number null) }
{
    match number {
        Some(number) => Ok(Tree::Text(object_id_text(alloc, Kind::Event, number)?)),
        None => Ok(Tree::Null),
    }
}
