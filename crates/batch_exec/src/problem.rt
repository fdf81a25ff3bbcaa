//! Problems that tell why a whole request was refused.
ghost use Rattle.std.specs.Prelude.{◌≡◌, IfOk};
ghost use Rattle.spec_json.specs.Data.{text};
ghost use Rattle.spec_batch.specs.Problem.{limit_name, problem, problem_detail, problem_type};
ghost use Rattle.spec_json.specs.TreeData.{data_of};

use spec_batch::request::{Limit, RequestError};
use spec_json::num::Num;
use spec_json::text::Text;
use spec_json::tree::Tree;
use std::alloc::{AllocError, Global};

/// The problem of a refused request (RFC 8620 section 3.6.1).
pub fn problem_tree(alloc: Global, error: RequestError) -> Result<Tree, AllocError>
    ensures { IfOk result (λ t. data_of t ≡ problem error) }
{
    let mut members = Vec::with_capacity(alloc, 4)?;
    members.push(("detail", text_tree(alloc, detail(error))?))?;
    if let RequestError::Limit(limit) = error {
        members.push(("limit", text_tree(alloc, limit_member(limit))?))?;
    }
    members.push(("status", Tree::Whole(Num::new(400))))?;
    members.push(("type", text_tree(alloc, type_name(error))?))?;
    Tree::object(alloc, members)
}

fn text_tree(alloc: Global, value: &str) -> Result<Tree, AllocError>
    ensures { IfOk result (λ t. data_of t ≡ text value.now) }
{
    Ok(Tree::Text(Text::from_str(alloc, value)?))
}

fn type_name(error: RequestError) -> &'static str
    ensures { result.now ≡ problem_type error }
{
    match error {
        RequestError::NotJson => "urn:ietf:params:jmap:error:notJSON",
        RequestError::NotRequest => "urn:ietf:params:jmap:error:notRequest",
        RequestError::UnknownCapability => "urn:ietf:params:jmap:error:unknownCapability",
        RequestError::Limit(_) => "urn:ietf:params:jmap:error:limit",
    }
}

fn detail(error: RequestError) -> &'static str
    ensures { result.now ≡ problem_detail error }
{
    match error {
        RequestError::NotJson => "The request is not JSON.",
        RequestError::NotRequest => "The request is not a JMAP request.",
        RequestError::UnknownCapability => "A capability is unknown.",
        RequestError::Limit(_) => "A limit was passed.",
    }
}

fn limit_member(limit: Limit) -> &'static str
    ensures { result.now ≡ limit_name limit }
{
    match limit {
        Limit::SizeRequest => "maxSizeRequest",
        Limit::CallsInRequest => "maxCallsInRequest",
    }
}
