//! What a client knows of the states of accounts.
ghost use Rattle.std.specs.Prelude.{◌≡◌, IfOk, OnOk, unwrap_or, codes, []};
ghost use Rattle.spec_json.specs.Json.{reading};
ghost use Rattle.spec_json.specs.Parts.{object_at};
ghost use Rattle.spec_json.specs.TreeData.{data_of, pair_of};
ghost use Rattle.spec_push.specs.StateChanges.{states_of};
ghost use Rattle.event_source.specs.EventStreams.{event_id, known_behind, states_told_by, with_account};

use hex::encode;
use json_edge::read::{ReadError, read_tree};
use json_edge::write::tree_text;
use sha2::{Digest, Sha256};
use spec_json::text::Text;
use spec_json::tree::{Member, Tree, TreeObject};
use std::alloc::{AllocError, Global};

/// What is known once a `StateChange` of this text is told too. Takes memory for it.
pub(crate) fn known_behind(
    alloc: Global,
    known: &TreeObject,
    text: &[u8],
) -> Result<TreeObject, AllocError>
    ensures { IfOk result (λ all. all ≡ known_behind known.now text.now) }
{
    let mut all = known.copy()?;
    let told = states_told(alloc, text)?;
    for account in told.members() {
        put_account(alloc, &mut all, account)?;
    }
    Ok(all)
}

// The states that a text tells, by account.
fn states_told(alloc: Global, text: &[u8]) -> Result<TreeObject, AllocError>
    ensures { IfOk result (λ told. told ≡ states_told_by (reading text.now)) }
{
    match read_tree(alloc, text) {
        Ok(tree) => Ok(changed_in(alloc, tree)),
        Err(ReadError::NoMemory) => Err(AllocError),
        Err(ReadError::NotJson) | Err(ReadError::NotWhole) => Ok(TreeObject::new(Vec::new(alloc))),
    }
}

// The object `changed` of a `StateChange`.
fn changed_in(alloc: Global, tree: Tree) -> TreeObject
    ensures { result ≡ unwrap_or (object_at (codes "changed") (data_of tree)) [] }
{
    match tree.into_value("changed") {
        Some(changed) => changed.into_object_or_empty(alloc),
        None => TreeObject::new(Vec::new(alloc)),
    }
}

// Has the states of an account known.
fn put_account(alloc: Global, known: &mut TreeObject, account: &Member) -> Result<(), AllocError>
    ensures { OnOk result (known.new ≡ with_account known.old (pair_of account.now)) }
{
    let told = account.value.copy()?.into_object_or_empty(alloc);
    let states = states_of(alloc, known, &account.key)?.with_all(alloc, told)?;
    known.put(account.key.copy()?, Tree::Object(states))
}

// The states of an account that are known.
fn states_of(alloc: Global, known: &TreeObject, account: &Text) -> Result<TreeObject, AllocError>
    ensures { IfOk result (λ states. states ≡ states_of account.now known.now) }
{
    match known.object_at(account.as_str()) {
        Some(states) => states.copy(),
        None => Ok(TreeObject::new(Vec::new(alloc))),
    }
}

/// The id of an event behind which this is known. Takes memory for it.
pub(crate) fn event_id(alloc: Global, known: &TreeObject) -> Result<Text, AllocError>
    ensures { IfOk result (λ id. id ≡ event_id known.now) }
{
    let text = tree_text(alloc, &Tree::Object(known.copy()?))?;
    let id = encode(alloc, Sha256::digest(text.as_slice()))?;
    Text::from_string(id)
}
