//! Requests from JSON values.
ghost use Rattle.std.specs.Prelude.{◌≡◌, ◌≢◌, [], ◌∷◌, IfErr, IfNone, IfOk, IfSome, length, map, option_and_then, option_map};
ghost use Rattle.std.specs.List.{list_all};
ghost use Rattle.batch_exec.specs.Refusal.{Refuses};
ghost use Rattle.spec_batch.specs.Asked.{asked, asked_by};
ghost use Rattle.spec_core.specs.Capabilities.{is_capability};
ghost use Rattle.spec_json.specs.Parts.{all_some, as_list, as_text};
ghost use Rattle.spec_batch.specs.Requests.{created_ids_of, invocation_of, invocation_with, is_id_pair, request_of, request_with};
ghost use Rattle.spec_json.specs.TreeData.{data_of, pair_of};

use spec_batch::request::{BatchError, Invocation, Invocations, Limit, Request, RequestError};
use spec_core::capability::{AVAILABILITY, CALENDARS, CORE, SLOTS, WEBSOCKET};
use spec_core::limits::MAX_CALLS_IN_REQUEST;
use spec_json::lists::Texts;
use spec_json::text::Text;
use spec_json::tree::{Member, Tree, TreeObject};
use std::alloc::{AllocError, Global};
use time_text::read_id;

/// The request that a JSON value is, or why the whole of it is refused (RFC 8620 sections 3.3 and 3.6.1).
///
/// First its shape is tested, then the capabilities that it uses, then the number of its calls. All of the request is
/// moved out of the tree; memory is taken for its lists alone.
pub fn request_from(alloc: Global, tree: Tree) -> Result<Request, BatchError>
    ensures ok { IfOk result (λ r. asked_by (data_of tree) ≡ asked r) }
    ensures err { IfErr result (λ e. Refuses e (asked_by (data_of tree))) }
{
    let request = match read_request(alloc, tree) {
        Ok(Some(request)) => request,
        Ok(None) => return Err(BatchError::Refused(RequestError::NotRequest)),
        Err(AllocError) => return Err(BatchError::NoMemory),
    };
    if !are_capabilities(request.using.items()) {
        return Err(BatchError::Refused(RequestError::UnknownCapability));
    }
    if request.calls.items().len() > MAX_CALLS_IN_REQUEST {
        return Err(BatchError::Refused(RequestError::Limit(Limit::CallsInRequest)));
    }
    Ok(request)
}

// The request that a tree is, where it has the shape of one.
#[tactic(auto, using(spec_json::specs::Data::pairs_back))]
fn read_request(alloc: Global, tree: Tree) -> Result<Option<Request>, AllocError>
    ensures { IfOk result (λ r. r ≡ request_of (data_of tree)) }
{
    let Tree::Object(mut members) = tree else {
        return Ok(None);
    };
    let capabilities = capabilities_from(alloc, members.take("using"))?;
    let calls = calls_from(alloc, members.take("methodCalls"))?;
    let created_ids = created_ids_from(members.take("createdIds"));
    Ok(request_from_parts(capabilities, calls, created_ids))
}

fn request_from_parts(
    capabilities: Option<Texts>,
    calls: Option<Invocations>,
    created_ids: Option<Option<TreeObject>>,
) -> Option<Request>
    ensures { result ≡ request_with capabilities calls created_ids }
{
    Some(Request {
        using: capabilities?,
        calls: calls?,
        created_ids: created_ids?,
    })
}

// All texts of the member `using`, where it is a list of texts.
fn capabilities_from(alloc: Global, member: Option<Tree>) -> Result<Option<Texts>, AllocError>
    ensures { IfOk result (λ o. o ≡ option_and_then (all_some as_text) (option_and_then as_list (option_map data_of member))) }
{
    match member.and_then(Tree::into_list) {
        Some(list) => list.into_texts(alloc),
        None => Ok(None),
    }
}

// All calls of the member `methodCalls`, where it is a list of calls.
#[tactic(auto, using(spec_json::proofs::Appending::push_option))]
fn calls_from(alloc: Global, member: Option<Tree>) -> Result<Option<Invocations>, AllocError>
    ensures { IfOk result (λ o. o ≡ option_and_then (all_some invocation_of) (option_and_then as_list (option_map data_of member))) }
{
    let Some(list) = member.and_then(Tree::into_list) else {
        return Ok(None);
    };
    let items = list.into_items();
    let mut calls = Vec::new(alloc);
    for item in items {
        match invocation_from(item) {
            Some(call) => calls.push(call)?,
            None => return Ok(None),
        }
    }
    Ok(Some(Invocations::new(calls)))
}

fn invocation_from(tree: Tree) -> Option<Invocation>
    ensures { result ≡ invocation_of (data_of tree) }
{
    let list = tree.into_list()?;
    let (name, arguments, call_id) = three_of(list.into_items())?;
    invocation(
        name.into_text(),
        arguments.into_object(),
        call_id.into_text(),
    )
}

// The items, where there are three.
fn three_of(mut items: Vec<Tree>) -> Option<(Tree, Tree, Tree)>
    ensures some { IfSome result (λ three. items.items ≡ three.0 ∷ three.1 ∷ three.2 ∷ []) }
    ensures none { IfNone result (length items.items ≢ 3) }
{
    if items.len() != 3 {
        return None;
    }
    let third = items.pop()?;
    let second = items.pop()?;
    let first = items.pop()?;
    Some((first, second, third))
}

fn invocation(
    name: Option<Text>,
    arguments: Option<TreeObject>,
    call_id: Option<Text>,
) -> Option<Invocation>
    ensures { result ≡ invocation_with name arguments call_id }
{
    Some(Invocation {
        name: name?,
        arguments: arguments?,
        call_id: call_id?,
    })
}

// The member `createdIds`: `None` is a member of another shape, `Some(None)` is an absent or null one.
#[tactic(auto, using(spec_json::specs::Data::pairs_back))]
fn created_ids_from(member: Option<Tree>) -> Option<Option<TreeObject>>
    ensures { result ≡ created_ids_of (option_map data_of member) }
{
    match member {
        None | Some(Tree::Null) => Some(None),
        Some(Tree::Object(ids)) => {
            if are_ids(ids.members()) {
                Some(Some(ids))
            } else {
                None
            }
        }
        Some(_) => None,
    }
}

// Whether each key and each value is an Id.
fn are_ids(members: &[Member]) -> bool
    ensures { result ≡ list_all is_id_pair (map pair_of members.now) }
{
    for member in members {
        if !is_id_member(member) {
            return false;
        }
    }
    true
}

fn is_id_member(member: &Member) -> bool
    ensures { result ≡ is_id_pair (pair_of member.now) }
{
    match &member.value {
        Tree::Text(id) => {
            read_id(member.key.as_str().as_bytes()) && read_id(id.as_str().as_bytes())
        }
        _ => false,
    }
}

fn are_capabilities(names: &[Text]) -> bool
    ensures { result ≡ list_all is_capability names.now }
{
    for name in names {
        if !is_known_capability(name.as_str()) {
            return false;
        }
    }
    true
}

fn is_known_capability(name: &str) -> bool
    ensures { result ≡ is_capability name.now }
{
    name == CORE || name == CALENDARS || name == AVAILABILITY || name == SLOTS || name == WEBSOCKET
}
