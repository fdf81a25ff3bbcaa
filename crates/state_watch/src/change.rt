//! The object that tells of changes (RFC 8620 section 7.1).
ghost use Rattle.std.specs.Prelude.{◌≡◌, ◌∷◌, [], IfOk, OnOk};
ghost use Rattle.spec_json.specs.Data.{text};
ghost use Rattle.spec_json.specs.Edit.{with_pair};
ghost use Rattle.spec_json.specs.Json.{text_of};
ghost use Rattle.spec_push.specs.StateChanges.{state_change, states_of, told_of, with_state};
ghost use Rattle.spec_push.specs.Watching.{data_type_name};
ghost use Rattle.state_watch.specs.Looking.{texts_in};

use json_edge::write::tree_text;
use spec_history::entry::Kind;
use spec_json::text::Text;
use spec_json::tree::{Tree, TreeObject};
use spec_push::watched::Watched;
use std::alloc::{AllocError, Global};

/// Puts a state in among those that are to be told. Takes memory for it.
pub(crate) fn put_state(
    alloc: Global,
    changed: &mut TreeObject,
    watched: &Watched,
    state: &Text,
) -> Result<(), AllocError>
    ensures { OnOk result (changed.new ≡ with_state watched.now state.now changed.old) }
{
    let states = with_type(
        alloc,
        states_of(alloc, changed, &watched.id)?,
        watched.kind,
        state,
    )?;
    changed.put(watched.id.copy()?, Tree::Object(states))
}

// The states of an account, by type, with this one.
fn with_type(
    alloc: Global,
    states: TreeObject,
    kind: Kind,
    state: &Text,
) -> Result<TreeObject, AllocError>
    ensures { IfOk result (λ all. all ≡ with_pair (data_type_name kind) (text state.now) states) }
{
    let mut states = states;
    states.put(
        Text::from_str(alloc, data_type_name(kind))?,
        Tree::Text(state.copy()?),
    )?;
    Ok(states)
}

// The states of an account among those that are to be told.
fn states_of(alloc: Global, changed: &TreeObject, id: &Text) -> Result<TreeObject, AllocError>
    ensures { IfOk result (λ states. states ≡ states_of id.now changed.now) }
{
    match changed.object_at(id.as_str()) {
        Some(states) => states.copy(),
        None => Ok(TreeObject::new(Vec::new(alloc))),
    }
}

fn data_type_name(kind: Kind) -> &'static str
    ensures { result.now ≡ data_type_name kind }
{
    match kind {
        Kind::Calendar => "Calendar",
        Kind::Event => "CalendarEvent",
    }
}

/// The text of the `StateChange` that tells these states, where there are any. Takes memory for it.
pub(crate) fn change_text(alloc: Global, changed: TreeObject) -> Result<Option<Vec<u8>>, AllocError>
    ensures { IfOk result (λ told. texts_in told ≡ told_of changed) }
{
    if changed.members().is_empty() {
        return Ok(None);
    }
    Ok(Some(object_text(alloc, changed)?))
}

// The text of the `StateChange` of these states.
fn object_text(alloc: Global, changed: TreeObject) -> Result<Vec<u8>, AllocError>
    ensures { IfOk result (λ bytes. bytes.items ≡ text_of (state_change changed)) }
{
    let name = Tree::Text(Text::from_str(alloc, "StateChange")?);
    let members = vec![in alloc; ("@type", name), ("changed", Tree::Object(changed))]?;
    tree_text(alloc, &Tree::object(alloc, members)?)
}
