//! The reply to a request.
ghost use Rattle.std.specs.Prelude.{◌<◌, All};
ghost use Rattle.spec_batch.specs.Asked.{asked_by};
ghost use Rattle.spec_batch.specs.Reply.{asked_in};
ghost use Rattle.spec_json.specs.TreeData.{data_of};
ghost use Rattle.request_reply.specs.Outcomes.{IsProblem, IsOutcome};

use batch_exec::problem::problem_tree;
use batch_exec::run::run_batch;
use json_edge::read::{ReadError, read_tree};
use spec_batch::desk::{Desk, DeskError, Front};
use spec_batch::request::{BatchError, Limit, RequestError};
use spec_core::limits::MAX_SIZE_REQUEST;
use spec_core::user::User;
use spec_json::tree::Tree;
use spec_time::moment::Moment;
use std::alloc::Global;

/// What a request came to.
#[derive(Drop)]
pub struct RequestOutcome {
    /// The response (RFC 8620 section 3.4), or the problem of a request that is refused as a whole (section 3.6.1).
    pub tree: Tree,
    /// Whether the request is refused as a whole.
    pub is_refusal: bool,
}

/// Answers bytes as a request of a user, on the accounts of a desk, at a moment.
///
/// A front is added for each call that the desk answered, in order. `PassSpent` comes only where the desk made as many calls as it
/// may. At both errors the calls that were answered stay in the accounts' histories, and their fronts are in the list.
pub fn reply_to<D: Desk>(
    alloc: Global,
    bytes: &[u8],
    user: &User,
    desk: &mut D,
    moment: Moment,
    fronts: &mut Vec<Front>,
) -> Result<RequestOutcome, DeskError>
    requires { All (λ g. g.account < (D.shown desk.old).accounts) user.now.grants }
    ensures { IsOutcome user.now moment (asked_in bytes.now) fronts.old.items fronts.new.items (D.shown desk.old) (D.shown desk.new) result }
{
    if bytes.len() > MAX_SIZE_REQUEST {
        return refusal(alloc, RequestError::Limit(Limit::SizeRequest));
    }
    match read_tree(alloc, bytes) {
        Ok(request) => reply_to_tree(alloc, request, user, desk, moment, fronts),
        Err(ReadError::NotJson) => refusal(alloc, RequestError::NotJson),
        Err(ReadError::NotWhole) => refusal(alloc, RequestError::NotRequest),
        Err(ReadError::NoMemory) => Err(DeskError::NoMemory),
    }
}

/// Answers a request that is read, as `reply_to` does.
pub fn reply_to_tree<D: Desk>(
    alloc: Global,
    request: Tree,
    user: &User,
    desk: &mut D,
    moment: Moment,
    fronts: &mut Vec<Front>,
) -> Result<RequestOutcome, DeskError>
    requires { All (λ g. g.account < (D.shown desk.old).accounts) user.now.grants }
    ensures { IsOutcome user.now moment (asked_by (data_of request)) fronts.old.items fronts.new.items (D.shown desk.old) (D.shown desk.new) result }
{
    match run_batch(alloc, request, user, desk, moment, fronts) {
        Ok(tree) => Ok(RequestOutcome {
            tree,
            is_refusal: false,
        }),
        Err(BatchError::Refused(error)) => refusal(alloc, error),
        Err(BatchError::PassSpent) => Err(DeskError::PassSpent),
        Err(BatchError::NoMemory) => Err(DeskError::NoMemory),
    }
}

/// The problem that tells why a request is refused as a whole (RFC 8620 section 3.6.1). Takes memory for it.
pub fn refusal(alloc: Global, error: RequestError) -> Result<RequestOutcome, DeskError>
    ensures { IsProblem error result }
{
    match problem_tree(alloc, error) {
        Ok(tree) => Ok(RequestOutcome {
            tree,
            is_refusal: true,
        }),
        Err(_) => Err(DeskError::NoMemory),
    }
}
