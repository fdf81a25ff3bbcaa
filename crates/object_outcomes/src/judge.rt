//! What comes of one object of a set.
ghost use Rattle.std.specs.Prelude.{◌≡◌, ◌++◌, IfOk, IfSome, Some, if◌then◌else◌, is_some, option_map};
ghost use Rattle.cal_model.specs.CreatedIds.{object_named, resolved_object};
ghost use Rattle.cal_model.specs.declared.set_error.SetError.TheVariants.{Forbidden, WillDestroy};
ghost use Rattle.cal_model.specs.Operations.{created_outcome, destroyed_outcome, is_in_use, object_outcome, outcome_of, patched_outcome, updated_outcome};
ghost use Rattle.spec_history.specs.History.{live_object};
ghost use Rattle.spec_json.specs.Parts.{members_in};
ghost use Rattle.spec_json.specs.Patch.{patched};
ghost use Rattle.spec_json.specs.TreeData.{data_of};
ghost use Rattle.object_outcomes.specs.Judging.{IsAllowed, IsBefore, ground_in, operation_in};

use crate::against::Against;
use crate::calendar::calendar_outcome;
use crate::created_ids::CreatedIds;
use crate::event::event_outcome;
use crate::given::{given_at, has_other_id};
use crate::occurrences::is_occurrence;
use crate::operation::Operation;
use crate::quota::within_quota;
use crate::resolved::{resolved_object, resolved_patch};
use crate::setting::{Judged, Setting};
use cal_model::set_error::SetError;
use cal_model::view::AccountView;
use patch_object::{PatchError, apply};
use spec_history::entry::{Change, Kind};
use spec_json::text::Text;
use spec_json::tree::{Tree, TreeObject};
use std::alloc::{AllocError, Global};
use time_text::read_object_id;

/// What comes of an update or a destroy after the changes of a view, where the request has created these ids.
pub fn judge<V: AccountView>(
    alloc: Global,
    view: &V,
    setting: &Setting<'_>,
    created: &CreatedIds,
    operation: &Operation<'_>,
) -> Result<Judged, AllocError>
    requires zones { (V.base view.now).zones ≡ setting.now.zones.now }
    ensures exact { IfOk result (λ j. j.outcome
        ≡ outcome_of (ground_in setting.now) (V.changes view.now) setting.now.kind created.now (operation_in operation.now)) }
    ensures allowed { IfOk result (IsAllowed (V.base view.now).zones (V.changes view.now)) }
{
    match operation {
        Operation::Update {
            id,
            patch,
            is_destroyed,
            is_repeated,
        } => {
            if is_occurrence(alloc, view, setting.kind, id)? {
                return Ok(Judged::refused(refusal_of_occurrence(*is_destroyed)));
            }
            let patch = resolved_patch(alloc, setting.kind, created, patch)?;
            update(
                alloc,
                view,
                setting,
                id,
                &patch,
                *is_destroyed,
                *is_repeated,
            )
        }
        Operation::Destroy(id) => {
            if is_occurrence(alloc, view, setting.kind, id)? {
                return Ok(Judged::refused(SetError::Forbidden));
            }
            destroy(alloc, view, setting, id)
        }
    }
}

// Why an occurrence isn't changed by itself.
fn refusal_of_occurrence(is_destroyed: bool) -> SetError
    ensures { result ≡ if is_destroyed then WillDestroy else Forbidden }
{
    if is_destroyed {
        SetError::WillDestroy
    } else {
        SetError::Forbidden
    }
}

/// What comes of creating an object of what the client gives, after the changes of a view, where the request has created these ids.
pub fn judge_create<V: AccountView>(
    alloc: Global,
    view: &V,
    setting: &Setting<'_>,
    created: &CreatedIds,
    value: &Tree,
) -> Result<Judged, AllocError>
    requires zones { (V.base view.now).zones ≡ setting.now.zones.now }
    ensures exact { IfOk result (λ j. j.outcome ≡ created_outcome (ground_in setting.now) (V.changes view.now) setting.now.kind
        (resolved_object created.now setting.now.kind (members_in (data_of value.now)))) }
    ensures allowed { IfOk result (IsAllowed (V.base view.now).zones (V.changes view.now)) }
{
    let object = resolved_object(alloc, setting.kind, created, value)?;
    let names_id = given_at(&object, "id").is_some();
    let number = view.created_so_far(setting.kind) + 1;
    object_outcome(alloc, view, setting, number, None, names_id, object)
}

// What comes of storing an object that may be put.
fn object_outcome<V: AccountView>(
    alloc: Global,
    view: &V,
    setting: &Setting<'_>,
    number: u64,
    before: Option<&Tree>,
    names_id: bool,
    object: TreeObject,
) -> Result<Judged, AllocError>
    requires before { IsBefore (V.changes view.now) setting.now.kind number (option_map (λ t. t.now) before) }
    requires zones { (V.base view.now).zones ≡ setting.now.zones.now }
    ensures exact { IfOk result (λ j. j.outcome ≡ object_outcome (ground_in setting.now) (V.changes view.now) setting.now.kind number
        (option_map (λ t. t.now) before.entry) names_id object) }
    ensures allowed { IfOk result (IsAllowed (V.base view.now).zones (V.changes view.now)) }
{
    match setting.kind {
        Kind::Calendar => calendar_outcome(alloc, view, setting, number, before, names_id, object),
        Kind::Event => event_outcome(alloc, view, setting, number, before, names_id, object),
    }
}

// The live object that an id names, and its number.
fn named<'a, V: AccountView>(view: &'a V, kind: Kind, id: &Text) -> Option<(u64, &'a Tree)>
    ensures exact { option_map (λ q. (q.0, q.1.now)) result ≡ object_named (V.changes view.now) kind id.now }
    ensures live { IfSome result (λ q. live_object (V.changes view.now) kind q.0 ≡ Some q.1.now) }
{
    let number = read_object_id(kind, id.as_str().as_bytes())?;
    let object = view.live(kind, number)?;
    Some((number, object))
}

fn update<V: AccountView>(
    alloc: Global,
    view: &V,
    setting: &Setting<'_>,
    id: &Text,
    patch: &TreeObject,
    is_destroyed: bool,
    is_repeated: bool,
) -> Result<Judged, AllocError>
    requires zones { (V.base view.now).zones ≡ setting.now.zones.now }
    ensures exact { IfOk result (λ j. j.outcome
        ≡ updated_outcome (ground_in setting.now) (V.changes view.now) setting.now.kind patch.now is_destroyed is_repeated
        (object_named (V.changes view.now) setting.now.kind id.now)) }
    ensures allowed { IfOk result (IsAllowed (V.base view.now).zones (V.changes view.now)) }
{
    match named(view, setting.kind, id) {
        None => Ok(Judged::refused(SetError::NotFound)),
        Some((number, object)) => {
            if is_destroyed {
                Ok(Judged::refused(SetError::WillDestroy))
            } else if is_repeated {
                let key = Text::empty();
                Ok(Judged::refused(SetError::InvalidPatch { key }))
            } else {
                patch_object(alloc, view, setting, number, object, patch)
            }
        }
    }
}

// What comes of patching an object that is there.
fn patch_object<V: AccountView>(
    alloc: Global,
    view: &V,
    setting: &Setting<'_>,
    number: u64,
    object: &Tree,
    patch: &TreeObject,
) -> Result<Judged, AllocError>
    requires before { live_object (V.changes view.now) setting.now.kind number ≡ Some object.now }
    requires zones { (V.base view.now).zones ≡ setting.now.zones.now }
    ensures exact { IfOk result (λ j. j.outcome
        ≡ patched_outcome (ground_in setting.now) (V.changes view.now) setting.now.kind number object.now (patched (data_of object.now) patch.now)) }
    ensures allowed { IfOk result (IsAllowed (V.base view.now).zones (V.changes view.now)) }
{
    match apply(alloc, object, patch) {
        Ok(tree) => {
            let patched = tree.into_object_or_empty(alloc);
            let names_id = has_other_id(alloc, setting.kind, number, &patched)?;
            object_outcome(
                alloc,
                view,
                setting,
                number,
                Some(object),
                names_id,
                patched,
            )
        }
        Err(PatchError::InvalidPatch { key }) => Ok(Judged::refused(SetError::InvalidPatch {
            key,
        })),
        Err(PatchError::NoMemory) => Err(AllocError),
    }
}

fn destroy<V: AccountView>(
    alloc: Global,
    view: &V,
    setting: &Setting<'_>,
    id: &Text,
) -> Result<Judged, AllocError>
    ensures exact { IfOk result (λ j. j.outcome
        ≡ destroyed_outcome (V.changes view.now) setting.now.kind
        (object_named (V.changes view.now) setting.now.kind id.now)) }
    ensures allowed { IfOk result (IsAllowed (V.base view.now).zones (V.changes view.now)) }
{
    match named(view, setting.kind, id) {
        None => Ok(Judged::refused(SetError::NotFound)),
        Some((number, object)) => remove(alloc, view, setting.kind, number, object),
    }
}

/// What comes of removing an object that is live.
pub(crate) fn remove<V: AccountView>(
    alloc: Global,
    view: &V,
    kind: Kind,
    number: u64,
    object: &Tree,
) -> Result<Judged, AllocError>
    requires { live_object (V.changes view.now) kind number ≡ Some object.now }
    ensures exact { IfOk result (λ j. j.outcome ≡ destroyed_outcome (V.changes view.now) kind (Some (number, object.now))) }
    ensures allowed { IfOk result (IsAllowed (V.base view.now).zones (V.changes view.now)) }
{
    if is_in_use(view, kind, number) {
        return Ok(Judged::refused(SetError::CalendarHasEvent));
    }
    let change = Change {
        kind,
        id: number,
        object: None,
    };
    let against = Against {
        is_full: false,
        clash: None,
    };
    within_quota(alloc, view, change, against, None)
}

// Whether this is a calendar in which events are.
fn is_in_use<V: AccountView>(view: &V, kind: Kind, number: u64) -> bool
    ensures { result ≡ is_in_use (V.changes view.now) kind number }
{
    match kind {
        Kind::Calendar => view.has_event(number),
        Kind::Event => false,
    }
}
