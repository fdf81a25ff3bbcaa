//! A request, from its JSON to its response.
ghost use Rattle.std.specs.Prelude.{◌≡◌, ◌<◌, ◌≤◌, [], All, IfOk, drop, length, unwrap_or};
ghost use Rattle.batch_exec.specs.Answering.{IsRequestAnswered};
ghost use Rattle.spec_batch.specs.Batch.{IsBatch, response_with_ids};
ghost use Rattle.spec_json.specs.TreeData.{data_of};

use crate::batch::{Answers, answer_all};
use crate::request::request_from;
use crate::response::response_tree;
use spec_batch::desk::{Desk, DeskError, Front};
use spec_batch::request::{BatchError, Request};
use spec_core::user::User;
use spec_json::tree::{Tree, TreeObject};
use spec_time::moment::Moment;
use std::alloc::{AllocError, Global};

/// Answers a request, given as JSON, for a user, on the accounts of a desk, at a moment
/// (RFC 8620 section 3).
///
/// A front is added for each call that the desk answered, in order. `Refused` comes before any call. At `PassSpent` and
/// on running out of memory the calls that were answered stay in the accounts' histories, and their fronts are in the list.
pub fn run_batch<D: Desk>(
    alloc: Global,
    request: Tree,
    user: &User,
    desk: &mut D,
    moment: Moment,
    fronts: &mut Vec<Front>,
) -> Result<Tree, BatchError>
    requires { All (λ g. g.account < (D.shown desk.old).accounts) user.now.grants }
    ensures { IsBatch user.now moment (data_of request) fronts.old.items fronts.new.items (D.shown desk.old) (D.shown desk.new) result }
{
    let request = match request_from(alloc, request) {
        Ok(request) => request,
        Err(error) => return Err(error),
    };
    answer_request(alloc, request, user, desk, moment, fronts)
}

fn answer_request<D: Desk>(
    alloc: Global,
    request: Request,
    user: &User,
    desk: &mut D,
    moment: Moment,
    fronts: &mut Vec<Front>,
) -> Result<Tree, BatchError>
    requires { All (λ g. g.account < (D.shown desk.old).accounts) user.now.grants }
    ensures { IsRequestAnswered user.now request moment fronts.old.items fronts.new.items (D.shown desk.old) (D.shown desk.new) result }
{
    let Request {
        using,
        calls,
        created_ids,
    } = request;
    let answers = match answer_all(
        alloc,
        &using,
        calls,
        &created_ids,
        user,
        desk,
        moment,
        fronts,
    ) {
        Ok(answers) => answers,
        Err(DeskError::PassSpent) => return Err(BatchError::PassSpent),
        Err(DeskError::NoMemory) => return Err(BatchError::NoMemory),
    };
    match response_from(alloc, created_ids, answers) {
        Ok(response) => Ok(response),
        Err(_) => Err(BatchError::NoMemory),
    }
}

/// The response to a request that gives these created ids and came to these answers.
fn response_from(
    alloc: Global,
    given: Option<TreeObject>,
    answers: Answers,
) -> Result<Tree, AllocError>
    requires { length (unwrap_or given []) ≤ length answers.created }
    ensures { IfOk result (λ t. data_of t ≡ response_with_ids given (drop (length (unwrap_or given [])) answers.created) answers.responses.items) }
{
    let count = match &given {
        None => 0,
        Some(object) => object.members().len(),
    };
    let mut created = answers.created.into_pairs();
    let added = created.split_off(count)?;
    response_tree(alloc, given, added, answers.responses)
}
