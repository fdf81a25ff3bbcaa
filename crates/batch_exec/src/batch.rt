//! The invocations of a request, one after the other, on the accounts of a desk.
ghost use Rattle.std.specs.Prelude.{◌≡◌, ◌<◌, ◌++◌, [], All, IfOk, map, unwrap_or};
ghost use Rattle.json_edge.specs.Lengths.{saturated};
ghost use Rattle.spec_batch.specs.Batch.{error_response, error_type, reply_response};
ghost use Rattle.spec_batch.specs.Meaning.{size_of_responses};
ghost use Rattle.spec_json.specs.Parts.{as_text};
ghost use Rattle.spec_batch.specs.Requests.{id_pair_of};
ghost use Rattle.spec_json.specs.TreeData.{data_of, pair_of};
ghost use Rattle.batch_exec.specs.Answering.{HasAnswered};
ghost use Rattle.batch_exec.specs.Stepping.{IsCallResponse, IsDeskReply, IsResponse};

use crate::meaning::{Judgement, judge};
use json_edge::length::text_length;
use spec_batch::desk::{Desk, DeskError, Front};
use spec_batch::method_response::MethodResponse;
use spec_batch::request::{Invocation, Invocations};
use spec_calls::call::{Call, MethodError, Reply};
use spec_core::user::User;
use spec_json::lists::{Pairs, Texts};
use spec_json::text::Text;
use spec_json::tree::{Member, Tree, TreeObject};
use spec_time::moment::Moment;
use std::alloc::{AllocError, Global};

fn error_name(error: MethodError) -> &'static str
    ensures { result.now ≡ error_type error }
{
    match error {
        MethodError::UnknownMethod => "unknownMethod",
        MethodError::InvalidArguments => "invalidArguments",
        MethodError::InvalidResultReference => "invalidResultReference",
        MethodError::AccountNotFound => "accountNotFound",
        MethodError::AccountReadOnly => "accountReadOnly",
        MethodError::RequestTooLarge => "requestTooLarge",
        MethodError::StateMismatch => "stateMismatch",
        MethodError::UnsupportedFilter => "unsupportedFilter",
        MethodError::UnsupportedSort => "unsupportedSort",
        MethodError::AnchorNotFound => "anchorNotFound",
        MethodError::NotFound => "notFound",
        MethodError::CannotCalculateChanges => "cannotCalculateChanges",
        MethodError::TooManyChanges => "tooManyChanges",
        MethodError::ServerFail => "serverFail",
    }
}

/// The response to an invocation that was refused (RFC 8620 section 3.6.2).
fn refusal(alloc: Global, call_id: Text, error: MethodError) -> Result<MethodResponse, AllocError>
    ensures { IfOk result (λ r. r ≡ error_response call_id error) }
{
    let kind = Tree::Text(Text::from_str(alloc, error_name(error))?);
    let arguments = Tree::object(alloc, vec![in alloc; ("type", kind)]?)?;
    let name = Text::from_str(alloc, "error")?;
    Ok(MethodResponse {
        name,
        arguments,
        call_id,
    })
}

/// The response to an invocation that an account replied to.
fn reply_of(
    alloc: Global,
    name: Text,
    call_id: Text,
    arguments: Tree,
    error: Option<MethodError>,
) -> Result<MethodResponse, AllocError>
    ensures { IfOk result (λ r. r ≡ reply_response name call_id arguments error) }
{
    match error {
        Some(error) => refusal(alloc, call_id, error),
        None => Ok(MethodResponse {
            name,
            arguments,
            call_id,
        }),
    }
}

/// Asks for a call on an account, at a moment, and notes where it was answered.
///
/// The memory for the note is taken before the desk is asked.
fn ask<D: Desk>(
    desk: &mut D,
    account: u32,
    call: &Call,
    moment: Moment,
    fronts: &mut Vec<Front>,
) -> Result<Reply, DeskError>
    requires { account < (D.shown desk.old).accounts }
    ensures { IsDeskReply fronts.old.items fronts.new.items (D.shown desk.old) (D.shown desk.new) account call.now moment result }
{
    if fronts.reserve(1).is_err() {
        return Err(DeskError::NoMemory);
    }
    match desk.call(account, call, moment) {
        Ok(reply) => {
            let place = reply.place;
            fronts.push_reserved(Front { account, place });
            Ok(reply)
        }
        Err(error) => Err(error),
    }
}

/// Adds the pairs of a reply to the created ids of the request.
fn with_added(created: Pairs, added: Pairs) -> Result<Pairs, AllocError>
    ensures { IfOk result (λ c. c ≡ created ++ added) }
{
    let mut pairs = created.into_pairs();
    pairs.append(&mut added.into_pairs())?;
    Ok(Pairs::new(pairs))
}

/// The response to a call on an account, whose created ids go to those of the request.
fn respond_from_account<D: Desk>(
    alloc: Global,
    desk: &mut D,
    account: u32,
    call: Call,
    moment: Moment,
    fronts: &mut Vec<Front>,
    created: &mut Pairs,
    name: Text,
    call_id: Text,
) -> Result<MethodResponse, DeskError>
    requires { account < (D.shown desk.old).accounts }
    ensures { IsCallResponse fronts.old.items fronts.new.items (D.shown desk.old) (D.shown desk.new) account call moment name call_id created.new result }
{
    let asked = ask(desk, account, &call, moment, fronts);
    let given = given_to(call);
    match asked {
        Ok(reply) => match response_to_reply(alloc, given, reply, created, name, call_id) {
            Ok(response) => Ok(response),
            Err(_) => Err(DeskError::NoMemory),
        },
        Err(error) => Err(error),
    }
}

/// The created ids of the request so far, as a call has them.
fn given_to(call: Call) -> Pairs
    ensures { result ≡ call.created }
{
    call.created
}

/// The response that a reply is, whose created ids go after those given.
fn response_to_reply(
    alloc: Global,
    given: Pairs,
    reply: Reply,
    created: &mut Pairs,
    name: Text,
    call_id: Text,
) -> Result<MethodResponse, AllocError>
    ensures created { IfOk result (λ r. created.new ≡ given ++ reply.created) }
    ensures response { IfOk result (λ r. r ≡ reply_response name call_id reply.arguments reply.error) }
{
    *created = with_added(given, reply.created)?;
    reply_of(alloc, name, call_id, reply.arguments, reply.error)
}

/// The response to an invocation, by the responses and the created ids before it.
///
/// `size` are the bytes of the compact texts of the arguments of these responses, or the last value of a u64 where there are more.
fn respond<D: Desk>(
    alloc: Global,
    user: &User,
    capabilities: &[Text],
    responses: &[MethodResponse],
    size: u64,
    created: &mut Pairs,
    desk: &mut D,
    invocation: Invocation,
    moment: Moment,
    fronts: &mut Vec<Front>,
) -> Result<MethodResponse, DeskError>
    requires accounts { All (λ g. g.account < (D.shown desk.old).accounts) user.now.grants }
    requires size { size ≡ saturated (size_of_responses responses.now) }
    ensures { IsResponse fronts.old.items fronts.new.items (D.shown desk.old) (D.shown desk.new) user.now.grants capabilities.now moment responses.now created.old created.new invocation result }
{
    let Invocation {
        name,
        arguments,
        call_id,
    } = invocation;
    match judge(
        alloc,
        user,
        capabilities,
        responses,
        size,
        created,
        &name,
        arguments,
    ) {
        Ok(Judgement::Refused(error)) => match refusal(alloc, call_id, error) {
            Ok(response) => Ok(response),
            Err(_) => Err(DeskError::NoMemory),
        },
        Ok(Judgement::Echo(arguments)) => Ok(MethodResponse {
            name,
            arguments: Tree::Object(arguments),
            call_id,
        }),
        Ok(Judgement::Call { account, call }) => respond_from_account(
            alloc, desk, account, call, moment, fronts, created, name, call_id,
        ),
        Err(_) => Err(DeskError::NoMemory),
    }
}

/// The created ids that a request gives.
fn given_ids(alloc: Global, given: &Option<TreeObject>) -> Result<Pairs, AllocError>
    ensures { IfOk result (λ c. c ≡ map id_pair_of (unwrap_or given.now [])) }
{
    match given {
        None => Ok(Pairs::new(Vec::new(alloc))),
        Some(object) => id_pairs(alloc, object.members()),
    }
}

fn id_pairs(alloc: Global, members: &[Member]) -> Result<Pairs, AllocError>
    ensures { IfOk result (λ c. c ≡ map id_pair_of (map pair_of members.now)) }
{
    let mut pairs = Vec::with_capacity(alloc, members.len())?;
    for member in members {
        pairs.push((member.key.copy()?, id_text(alloc, &member.value)?))?;
    }
    Ok(Pairs::new(pairs))
}

fn id_text(alloc: Global, value: &Tree) -> Result<Text, AllocError>
    ensures { IfOk result (λ t. t ≡ unwrap_or (as_text (data_of value.now)) []) }
{
    match value {
        Tree::Text(text) => text.copy(),
        _ => Text::from_str(alloc, ""),
    }
}

/// What the invocations of a request came to.
#[derive(Drop)]
pub(crate) struct Answers {
    /// The responses, in order.
    pub(crate) responses: Vec<MethodResponse>,
    /// The created ids: those that the request gives, and those that its calls added.
    pub(crate) created: Pairs,
}

/// Answers the invocations of a request, one after the other, until one isn't answered.
///
/// `given` are the created ids that the request gives.
pub(crate) fn answer_all<D: Desk>(
    alloc: Global,
    capabilities: &Texts,
    calls: Invocations,
    given: &Option<TreeObject>,
    user: &User,
    desk: &mut D,
    moment: Moment,
    fronts: &mut Vec<Front>,
) -> Result<Answers, DeskError>
    requires { All (λ g. g.account < (D.shown desk.old).accounts) user.now.grants }
    ensures { HasAnswered user.now (record { using = capabilities.now; calls = calls; created_ids = given.now }) moment fronts.old.items fronts.new.items (D.shown desk.old) (D.shown desk.new) result }
{
    let Ok(mut created) = given_ids(alloc, given) else {
        return Err(DeskError::NoMemory);
    };
    let mut responses = Vec::new(alloc);
    let mut size: u64 = 0;
    for invocation in calls.into_items() {
        let response = match respond(
            alloc,
            user,
            capabilities.items(),
            &responses,
            size,
            &mut created,
            desk,
            invocation,
            moment,
            fronts,
        ) {
            Ok(response) => response,
            Err(error) => return Err(error),
        };
        size = size.saturating_add(text_length(&response.arguments));
        if responses.push(response).is_err() {
            return Err(DeskError::NoMemory);
        }
    }
    Ok(Answers { responses, created })
}
