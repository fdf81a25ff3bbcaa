//! What a look for a slot comes to.
ghost use Rattle.std.specs.Prelude.{◌≡◌, ◌<◌, All, IfErr, IfOk, Ok, codes, length, option_map, IfSome};
ghost use Rattle.slot_request.specs.Told.{AreTold};
ghost use Rattle.slot_run.specs.Answers.{look_answer, request_by, slot_granted, slot_of_members, slot_of_object};
ghost use Rattle.slot_run.specs.Errors.{IsError};
ghost use Rattle.slot_request.specs.Shown.{request_shown};
ghost use Rattle.spec_batch.specs.Meaning.{grant_of};
ghost use Rattle.spec_calls.specs.Asking.{text_argument};
ghost use Rattle.spec_core.specs.Id.{is_id};
ghost use Rattle.spec_json.specs.Parts.{as_object};
ghost use Rattle.spec_json.specs.TreeData.{data_of};

use crate::refusal::{Refusal, SlotError};
use account_core::account::Account;
use batch_exec::arguments::are_well_given;
use batch_exec::call::{grant_of, slot_given};
use json_edge::error::ReadError;
use json_edge::read::read_tree;
use slot_request::{SlotRequest, read_request};
use spec_calls::method::Method;
use spec_core::limits::MAX_SIZE_REQUEST;
use spec_core::user::{Grant, Grants};
use spec_json::tree::{Tree, TreeObject};
use spec_slots::slot::FoundSlot;
use std::alloc::{AllocError, Global};
use time_text::read_id;

/// What bytes come to, on accounts of which a user has these grants.
///
/// A refusal is the first that holds. Takes memory for what the bytes ask for, and for what is found.
pub(crate) fn find_slot(
    alloc: Global,
    grants: &Grants,
    accounts: &[Account],
    bytes: &[u8],
) -> Result<FoundSlot, SlotError>
    requires { All (λ g. g.account < length accounts.now) grants.now }
    ensures found { IfOk result (λ found. look_answer grants.now accounts.now bytes.now ≡ Ok found) }
    ensures refused { IfErr result (IsError (look_answer grants.now accounts.now bytes.now)) }
    ensures told { IfOk result AreTold }
{
    if bytes.len() > MAX_SIZE_REQUEST {
        return Err(SlotError::Refused(Refusal::NotJson));
    }
    match read_tree(alloc, bytes) {
        Ok(tree) => find_in_tree(alloc, Method::FindSlot, grants, accounts, tree),
        Err(ReadError::NotJson | ReadError::NotWhole) => Err(SlotError::Refused(Refusal::NotJson)),
        Err(ReadError::NoMemory) => Err(SlotError::NoMemory),
    }
}

// What a JSON value comes to whose members are the arguments of a method.
fn find_in_tree(
    alloc: Global,
    method: Method,
    grants: &Grants,
    accounts: &[Account],
    tree: Tree,
) -> Result<FoundSlot, SlotError>
    requires { All (λ g. g.account < length accounts.now) grants.now }
    ensures found { IfOk result (λ found. slot_of_object method grants.now accounts.now (as_object (data_of tree)) ≡ Ok found) }
    ensures refused { IfErr result (IsError (slot_of_object method grants.now accounts.now (as_object (data_of tree)))) }
    ensures told { IfOk result AreTold }
{
    match tree.into_object() {
        Some(members) => find_asked(alloc, method, grants, accounts, members),
        None => Err(SlotError::Refused(Refusal::InvalidArguments)),
    }
}

// What the arguments of a method come to.
fn find_asked(
    alloc: Global,
    method: Method,
    grants: &Grants,
    accounts: &[Account],
    members: TreeObject,
) -> Result<FoundSlot, SlotError>
    requires { All (λ g. g.account < length accounts.now) grants.now }
    ensures found { IfOk result (λ found. slot_of_members method grants.now accounts.now members ≡ Ok found) }
    ensures refused { IfErr result (IsError (slot_of_members method grants.now accounts.now members)) }
    ensures told { IfOk result AreTold }
{
    let grant = grant_of(grants, &members);
    match request_by(alloc, method, members)? {
        Some(asked) => find_granted(accounts, grant, &asked),
        None => Err(SlotError::Refused(Refusal::InvalidArguments)),
    }
}

// What the arguments of a method ask for. Takes memory for it.
fn request_by(
    alloc: Global,
    method: Method,
    members: TreeObject,
) -> Result<Option<SlotRequest>, AllocError>
    ensures { IfOk result (λ asked. option_map request_shown asked ≡ request_by method members) }
{
    if !are_well_given(method, &members) || !has_id(&members) {
        return Ok(None);
    }
    let arguments = slot_given(alloc, members);
    read_request(alloc, &arguments)
}

// Whether `accountId` is an Id (RFC 8620 section 1.2).
fn has_id(members: &TreeObject) -> bool
    ensures { result ≡ is_id (text_argument members.now (codes "accountId")) }
{
    match members.get("accountId") {
        Some(Tree::Text(id)) => read_id(id.as_str().as_bytes()),
        _ => false,
    }
}

// The slot in the account that is granted.
fn find_granted(
    accounts: &[Account],
    grant: Option<&Grant>,
    asked: &SlotRequest,
) -> Result<FoundSlot, SlotError>
    requires { IfSome grant (λ g. g.now.account < length accounts.now) }
    ensures found { IfOk result (λ found. slot_granted accounts.now (request_shown asked.now) (option_map (λ g. g.now) grant.entry) ≡ Ok found) }
    ensures refused { IfErr result (IsError (slot_granted accounts.now (request_shown asked.now) (option_map (λ g. g.now) grant.entry))) }
    ensures told { IfOk result AreTold }
{
    let Some(grant) = grant else {
        return Err(SlotError::Refused(Refusal::AccountNotFound));
    };
    match accounts[grant.account as usize].find_slot(asked)? {
        Some(found) => Ok(found),
        None => Err(SlotError::Refused(Refusal::CalendarNotFound)),
    }
}
