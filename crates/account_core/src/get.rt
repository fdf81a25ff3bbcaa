//! Gets (RFC 8620 section 5.1).
ghost use Rattle.std.specs.Prelude.{◌≡◌, [], Some, None, true, IfOk, map};
ghost use Rattle.account_core.specs.Ledger.{base, ledger_entries};
ghost use Rattle.cal_model.specs.Answer.{answered, get_answer};
ghost use Rattle.cal_model.specs.Gets.{are_properties, get_response};
ghost use Rattle.spec_history.specs.History.{changes_of};
ghost use Rattle.spec_json.specs.TreeData.{data_of};

use crate::found::{Found, find_all, find_ids};
use crate::ledger::Ledger;
use crate::properties::are_properties;
use crate::reply::{refusal, reply};
use object_outcomes::texts::text_list;
use spec_calls::call::{GetArguments, MethodError, Reply};
use spec_core::limits::MAX_OBJECTS_IN_GET;
use spec_history::entry::Kind;
use spec_history::state::State;
use spec_json::lists::{Pairs, Texts};
use spec_json::text::Text;
use spec_json::tree::{Tree, TreeList};
use std::alloc::AllocError;
use time_text::state_text;

/// Answers a get of objects of a kind. A name that no property of the kind has is told before too many objects, or too large ones.
pub fn get(ledger: &Ledger, arguments: &GetArguments, created: &Pairs) -> Result<Reply, AllocError>
    ensures { IfOk result (λ r. r ≡ get_answer (base ledger.now) (ledger_entries ledger.now) created.now arguments.now) }
{
    let kind = arguments.kind;
    let properties = &arguments.properties;
    if !are_properties(kind, properties) {
        return Ok(refusal(ledger.alloc, &ledger.store, MethodError::InvalidArguments));
    }
    match &arguments.ids {
        Some(ids) => get_ids(ledger, kind, created.pairs(), ids.items(), properties),
        None => get_all(ledger, kind, properties),
    }
}

fn get_ids(
    ledger: &Ledger,
    kind: Kind,
    created: &[(Text, Text)],
    ids: &[Text],
    properties: &Option<Texts>,
) -> Result<Reply, AllocError>
    requires { are_properties kind properties.now ≡ true }
    ensures { IfOk result (λ r. r ≡ get_answer (base ledger.now) (ledger_entries ledger.now) created.now (record { kind = kind; ids = Some ids.now; properties = properties.now })) }
{
    if ids.len() > MAX_OBJECTS_IN_GET {
        return Ok(refusal(ledger.alloc, &ledger.store, MethodError::RequestTooLarge));
    }
    match find_ids(ledger.alloc, &ledger.store, kind, ids, properties, created)? {
        Some(found) => get_reply(ledger, kind, found),
        None => Ok(refusal(ledger.alloc, &ledger.store, MethodError::RequestTooLarge)),
    }
}

fn get_all(ledger: &Ledger, kind: Kind, properties: &Option<Texts>) -> Result<Reply, AllocError>
    requires { are_properties kind properties.now ≡ true }
    ensures { IfOk result (λ r. r ≡ get_answer (base ledger.now) (ledger_entries ledger.now) [] (record { kind = kind; ids = None; properties = properties.now })) }
{
    let objects = ledger.store.live(ledger.alloc, kind)?;
    if objects.len() > MAX_OBJECTS_IN_GET {
        return Ok(refusal(ledger.alloc, &ledger.store, MethodError::RequestTooLarge));
    }
    match find_all(ledger.alloc, kind, &objects, properties)? {
        Some(found) => get_reply(ledger, kind, found),
        None => Ok(refusal(ledger.alloc, &ledger.store, MethodError::RequestTooLarge)),
    }
}

// The reply to a get that found this.
fn get_reply(ledger: &Ledger, kind: Kind, found: Found) -> Result<Reply, AllocError>
    ensures { IfOk result (λ r. r ≡ answered (ledger_entries ledger.now)
        (get_response (base ledger.now) kind (changes_of (ledger_entries ledger.now)) (map data_of found.list.items) found.missing.items) []) }
{
    let arguments = arguments_tree(ledger, kind, found)?;
    Ok(reply(&ledger.store, arguments, Pairs::new(Vec::new(ledger.alloc))))
}

fn arguments_tree(ledger: &Ledger, kind: Kind, found: Found) -> Result<Tree, AllocError>
    ensures { IfOk result (λ t. t ≡ get_response (base ledger.now) kind (changes_of (ledger_entries ledger.now)) (map data_of found.list.items) found.missing.items) }
{
    let alloc = ledger.alloc;
    let id = Tree::Text(ledger.id.copy()?);
    let list = Tree::List(TreeList::new(found.list));
    let missing = text_list(alloc, found.missing)?;
    let state = State {
        generation: ledger.generation,
        number: ledger.store.count(kind),
    };
    let members = vec![in alloc;
        ("accountId", id),
        ("list", list),
        ("notFound", missing),
        ("state", Tree::Text(state_text(alloc, state)?)),
    ]?;
    Tree::object(alloc, members)
}
