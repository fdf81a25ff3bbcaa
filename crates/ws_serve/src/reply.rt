//! The reply to a text.
ghost use Rattle.std.specs.Prelude.{◌≡◌, ◌<◌, All, IfOk, OnOk, codes, option_map};
ghost use Rattle.spec_json.specs.Json.{text_of};
ghost use Rattle.spec_json.specs.Parts.{text_at};
ghost use Rattle.spec_json.specs.TreeData.{data_of};
ghost use Rattle.spec_sockets.specs.Texts.{asked_by_marked, is_marked, marked, request_id, type_name, with_request_id};
ghost use Rattle.ws_serve.specs.Answering.{IsTextAnswered, IsTreeAnswered, replied_as};
ghost use Rattle.ws_serve.specs.Valued.{IsAnsweredAs, IsRefusalText};

use crate::switch::{is_text_if_any, says_text, switch_of};
use json_edge::read::{ReadError, read_tree};
use json_edge::write::tree_text;
use request_reply::reply::{RequestOutcome, refusal, reply_to_tree};
use spec_batch::desk::{Desk, DeskError, Front};
use spec_batch::request::{Limit, RequestError};
use spec_core::limits::MAX_SIZE_REQUEST;
use spec_core::user::User;
use spec_json::text::Text;
use spec_json::tree::{Tree, TreeObject};
use spec_sockets::switch::Switch;
use spec_time::moment::Moment;
use std::alloc::{AllocError, Global};

/// What a text comes to.
#[derive(Drop)]
pub enum TextAnswer {
    /// The text of a `Response` or of a `RequestError` (RFC 8887 sections 4.3.3 and 4.3.4).
    Reply(Vec<u8>),
    /// The text is a switch, which has no reply (section 4.3.5).
    Switch(Switch),
}

/// Answers a text of a user, on the accounts of a desk, at a moment: as a request, where it is no switch.
///
/// A front is added for each call that the desk answered, in order. `PassSpent` comes only where the desk made as many calls as it
/// may. At both errors the calls that were answered stay in the accounts' histories, and their fronts are in the list. Takes memory for the reply.
pub fn ws_reply<D: Desk>(
    alloc: Global,
    text: &[u8],
    user: &User,
    desk: &mut D,
    moment: Moment,
    fronts: &mut Vec<Front>,
) -> Result<TextAnswer, DeskError>
    requires { All (λ g. g.account < (D.shown desk.old).accounts) user.now.grants }
    ensures { IsTextAnswered user.now moment text.now fronts.old.items fronts.new.items (D.shown desk.old) (D.shown desk.new) result }
{
    if text.len() > MAX_SIZE_REQUEST {
        let limit = RequestError::Limit(Limit::SizeRequest);
        return replied(refuse(alloc, limit, None));
    }
    match read_tree(alloc, text) {
        Ok(tree) => answer_tree(alloc, tree, user, desk, moment, fronts),
        Err(ReadError::NotJson) => replied(refuse(alloc, RequestError::NotJson, None)),
        Err(ReadError::NotWhole) => replied(refuse(alloc, RequestError::NotRequest, None)),
        Err(ReadError::NoMemory) => Err(DeskError::NoMemory),
    }
}

// What a text that is read comes to.
fn answer_tree<D: Desk>(
    alloc: Global,
    tree: Tree,
    user: &User,
    desk: &mut D,
    moment: Moment,
    fronts: &mut Vec<Front>,
) -> Result<TextAnswer, DeskError>
    requires { All (λ g. g.account < (D.shown desk.old).accounts) user.now.grants }
    ensures { IsTreeAnswered user.now moment (data_of tree) fronts.old.items fronts.new.items (D.shown desk.old) (D.shown desk.new) result }
{
    match switch_of(&tree) {
        Some(switch) => Ok(TextAnswer::Switch(switch)),
        None => replied(reply_to_marked(alloc, tree, user, desk, moment, fronts)),
    }
}

fn replied(reply: Result<Vec<u8>, DeskError>) -> Result<TextAnswer, DeskError>
    ensures { result ≡ replied_as reply }
{
    match reply {
        Ok(bytes) => Ok(TextAnswer::Reply(bytes)),
        Err(error) => Err(error),
    }
}

// The reply to a request that is read, if it is one.
fn reply_to_marked<D: Desk>(
    alloc: Global,
    tree: Tree,
    user: &User,
    desk: &mut D,
    moment: Moment,
    fronts: &mut Vec<Front>,
) -> Result<Vec<u8>, DeskError>
    requires { All (λ g. g.account < (D.shown desk.old).accounts) user.now.grants }
    ensures { IsAnsweredAs user.now moment (asked_by_marked (data_of tree)) (text_at (codes "id") (data_of tree)) fronts.old.items fronts.new.items (D.shown desk.old) (D.shown desk.new) result }
{
    let Ok(id) = id_of(&tree) else {
        return Err(DeskError::NoMemory);
    };
    if !is_marked(&tree) {
        return refuse(alloc, RequestError::NotRequest, id);
    }
    let outcome = match reply_to_tree(alloc, tree, user, desk, moment, fronts) {
        Ok(outcome) => outcome,
        Err(error) => return Err(error),
    };
    match reply_text(alloc, outcome, id) {
        Ok(bytes) => Ok(bytes),
        Err(_) => Err(DeskError::NoMemory),
    }
}

// The client's id of a request. Takes memory for it.
fn id_of(tree: &Tree) -> Result<Option<Text>, AllocError>
    ensures { IfOk result (λ id. id ≡ text_at (codes "id") (data_of tree.now)) }
{
    match tree.text_at("id") {
        Some(id) => Ok(Some(id.copy()?)),
        None => Ok(None),
    }
}

fn is_marked(tree: &Tree) -> bool
    ensures { result ≡ is_marked (data_of tree.now) }
{
    says_text(tree.text_at("@type"), "Request") && is_text_if_any(tree.get("id"))
}

// The text that tells why a request with this id was refused.
fn refuse(alloc: Global, error: RequestError, id: Option<Text>) -> Result<Vec<u8>, DeskError>
    ensures { IsRefusalText error id result }
{
    let outcome = match refusal(alloc, error) {
        Ok(outcome) => outcome,
        Err(error) => return Err(error),
    };
    match reply_text(alloc, outcome, id) {
        Ok(bytes) => Ok(bytes),
        Err(_) => Err(DeskError::NoMemory),
    }
}

// The text of a reply to a request with this id.
fn reply_text(
    alloc: Global,
    outcome: RequestOutcome,
    id: Option<Text>,
) -> Result<Vec<u8>, AllocError>
    ensures { IfOk result (λ v. v.items ≡ text_of (marked outcome.is_refusal id (data_of outcome.tree))) }
{
    let RequestOutcome { tree, is_refusal } = outcome;
    let mut members = tree.into_object_or_empty(alloc);
    let name = Text::from_str(alloc, type_name(is_refusal))?;
    members.put(Text::from_str(alloc, "@type")?, Tree::Text(name))?;
    put_id(alloc, &mut members, request_id(is_refusal, id))?;
    tree_text(alloc, &Tree::Object(members))
}

// Puts the member `requestId` in, where there is one.
fn put_id(alloc: Global, members: &mut TreeObject, id: Option<Tree>) -> Result<(), AllocError>
    ensures { OnOk result (members.new ≡ with_request_id (option_map data_of id) members.old) }
{
    match id {
        Some(id) => members.put(Text::from_str(alloc, "requestId")?, id),
        None => Ok(()),
    }
}

fn type_name(is_refusal: bool) -> &'static str
    ensures { result.now ≡ type_name is_refusal }
{
    if is_refusal {
        "RequestError"
    } else {
        "Response"
    }
}

// The member `requestId` of a reply, where it has one.
fn request_id(is_refusal: bool, id: Option<Text>) -> Option<Tree>
    ensures { option_map data_of result ≡ request_id is_refusal id }
{
    match id {
        Some(id) => Some(Tree::Text(id)),
        None if is_refusal => Some(Tree::Null),
        None => None,
    }
}
