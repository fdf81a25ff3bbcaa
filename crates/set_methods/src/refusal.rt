//! Sets that are refused as a whole.
ghost use Rattle.std.specs.Prelude.{◌≡◌, ◌&&◌, IfOk, map, nat_lt, length, ◌+◌};
ghost use Rattle.std.specs.List.{list_all};
ghost use Rattle.cal_model.specs.Sets.{are_values, is_in_state, objects_of, set_refusal};
ghost use Rattle.spec_core.specs.Id.{is_id};
ghost use Rattle.spec_core.specs.declared.limits.TheConstants.{MAX_OBJECTS_IN_SET};
ghost use Rattle.spec_json.specs.Patch.{is_object};
ghost use Rattle.spec_json.specs.TreeData.{data_of, pair_of};

use crate::objects::{creates, destroys, updates};
use cal_model::view::AccountView;
use spec_calls::call::{MethodError, SetArguments};
use spec_core::limits::MAX_OBJECTS_IN_SET;
use spec_history::entry::Kind;
use spec_json::text::Text;
use spec_json::tree::{Member, Tree};
use std::alloc::{AllocError, Global};
use time_text::{read_id, state_text};

/// Why a set is refused as a whole: a value that isn't one of the argument's, then too many objects, then another state than the
/// client's (RFC 8620 section 5.3).
pub(crate) fn refusal<V: AccountView>(
    alloc: Global,
    view: &V,
    arguments: &SetArguments,
) -> Result<Option<MethodError>, AllocError>
    ensures { IfOk result (λ r. r ≡ set_refusal (V.base view.now).generation arguments.now.kind (V.changes view.now) (objects_of arguments.now) arguments.now.if_in_state arguments.now.remove_events) }
{
    if !are_values(arguments) {
        return Ok(Some(MethodError::InvalidArguments));
    }
    if has_too_many(arguments) {
        return Ok(Some(MethodError::RequestTooLarge));
    }
    if !is_in_state(alloc, view, arguments.kind, &arguments.if_in_state)? {
        return Ok(Some(MethodError::StateMismatch));
    }
    Ok(None)
}

// Whether creation ids are Ids, and what is created or patched is an object.
fn are_values(arguments: &SetArguments) -> bool
    ensures { result ≡ are_values (objects_of arguments.now) arguments.now.remove_events }
{
    are_creates(creates(arguments))
        && are_updates(updates(arguments))
        && !arguments.remove_events.unwrap_or(false)
}

fn are_creates(creates: &[Member]) -> bool
    ensures { result ≡ list_all (λ p. is_id p.0 && is_object p.1) (map pair_of creates.now) }
{
    for create in creates {
        if !read_id(create.key.as_str().as_bytes()) || !is_object(&create.value) {
            return false;
        }
    }
    true
}

fn are_updates(updates: &[Member]) -> bool
    ensures { result ≡ list_all (λ p. is_object p.1) (map pair_of updates.now) }
{
    for update in updates {
        if !is_object(&update.value) {
            return false;
        }
    }
    true
}

fn is_object(value: &Tree) -> bool
    ensures { result ≡ is_object (data_of value.now) }
{
    matches!(value, Tree::Object(_))
}

fn has_too_many(arguments: &SetArguments) -> bool
    ensures { result ≡ nat_lt MAX_OBJECTS_IN_SET (length (objects_of arguments.now).creates + (length (objects_of arguments.now).updates + length (objects_of arguments.now).destroys)) }
{
    let created = creates(arguments).len();
    let updated = updates(arguments).len();
    let destroyed = destroys(arguments).len();
    let most = MAX_OBJECTS_IN_SET;
    created > most || updated > most - created || destroyed > most - created - updated
}

fn is_in_state<V: AccountView>(
    alloc: Global,
    view: &V,
    kind: Kind,
    state: &Option<Text>,
) -> Result<bool, AllocError>
    ensures { IfOk result (λ b. b ≡ is_in_state (V.base view.now).generation kind (V.changes view.now) state.now) }
{
    match state {
        Some(state) => Ok(state.as_str() == state_text(alloc, view.state(kind))?.as_str()),
        None => Ok(true),
    }
}
