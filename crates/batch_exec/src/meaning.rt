//! What an invocation means: an error, an answer without an account, or a call on an account.
ghost use Rattle.std.specs.Prelude.{◌≡◌, ◌≢◌, All, ◌<◌, IfOk, ℕ};
ghost use Rattle.json_edge.specs.Lengths.{saturated};
ghost use Rattle.spec_batch.specs.Meaning.{meaning_of_arguments, meaning_of_call, meaning_of_method, size_of_responses};
ghost use Rattle.spec_calls.specs.Methods.{call_of, method_used, row, uses};
ghost use Rattle.spec_batch.specs.References.{resolution, resolved};
ghost use Rattle.batch_exec.specs.Judgements.{account_is_below, created_with, meaning_in};

use crate::arguments::are_well_given;
use crate::call::{call_from, grant_of};
use result_refs::{ReferenceError, resolve};
use spec_batch::limits::MAX_RESPONSES_BYTES;
use spec_batch::method_response::MethodResponse;
use spec_calls::call::{Call, MethodError};
use spec_calls::method::Method;
use spec_core::user::User;
use spec_json::lists::Pairs;
use spec_json::text::Text;
use spec_json::tree::TreeObject;
use std::alloc::{AllocError, Global};

/// What an invocation means. Its arguments have the values of the references.
#[derive(Drop)]
pub(crate) enum Judgement {
    /// It is refused.
    Refused(MethodError),
    /// It answers its arguments.
    Echo(TreeObject),
    /// It is a call on the account of this number.
    Call { account: u32, call: Call },
}

fn is_used(capabilities: &[Text], capability: &str) -> bool
    ensures { result ≡ uses capabilities.now capability.now }
{
    for name in capabilities {
        if name.as_str() == capability {
            return true;
        }
    }
    false
}

/// The method of a name, where the request uses its capability. Takes no memory.
fn method_in_use(capabilities: &[Text], name: &str) -> Option<Method>
    ensures { result ≡ method_used capabilities.now name.now }
{
    match Method::named(name) {
        Some(method) => {
            if is_used(capabilities, method.capability()) {
                Some(method)
            } else {
                None
            }
        }
        None => None,
    }
}

/// What an invocation means after these responses (RFC 8620 sections 3.6.2 and 3.7).
///
/// `size` are the bytes of the compact texts of their arguments, or the last value of a u64 where there are more. The created ids
/// go into the call where it is one.
pub(crate) fn judge(
    alloc: Global,
    user: &User,
    capabilities: &[Text],
    responses: &[MethodResponse],
    size: u64,
    created: &mut Pairs,
    name: &Text,
    arguments: TreeObject,
) -> Result<Judgement, AllocError>
    requires { size ≡ saturated (size_of_responses responses.now) }
    ensures meaning { IfOk result (λ j. meaning_in j ≡ meaning_of_method user.now.grants created.old responses.now arguments (method_used capabilities.now name.now)) }
    ensures created { IfOk result (λ j. created_with j created.new ≡ created.old) }
    ensures account { (accounts : ℕ) → All (λ g. g.account < accounts) user.now.grants → IfOk result (λ j. account_is_below accounts j) }
{
    let Some(method) = method_in_use(capabilities, name.as_str()) else {
        return Ok(Judgement::Refused(MethodError::UnknownMethod));
    };
    if size > MAX_RESPONSES_BYTES {
        return Ok(Judgement::Refused(MethodError::RequestTooLarge));
    }
    judge_arguments(alloc, user, created, method, responses, arguments)
}

/// What an invocation of a method means after these responses.
fn judge_arguments(
    alloc: Global,
    user: &User,
    created: &mut Pairs,
    method: Method,
    responses: &[MethodResponse],
    arguments: TreeObject,
) -> Result<Judgement, AllocError>
    ensures meaning { IfOk result (λ j. meaning_in j ≡ meaning_of_arguments user.now.grants created.old method (resolution responses.now arguments)) }
    ensures created { IfOk result (λ j. created_with j created.new ≡ created.old) }
    ensures account { (accounts : ℕ) → All (λ g. g.account < accounts) user.now.grants → IfOk result (λ j. account_is_below accounts j) }
{
    match resolve(alloc, arguments, responses) {
        Ok(arguments) => judge_resolved(alloc, user, created, method, arguments),
        Err(ReferenceError::BothForms) => Ok(Judgement::Refused(MethodError::InvalidArguments)),
        Err(ReferenceError::BadReference) => {
            Ok(Judgement::Refused(MethodError::InvalidResultReference))
        }
        Err(ReferenceError::TooMany | ReferenceError::TooLarge { .. }) => {
            Ok(Judgement::Refused(MethodError::RequestTooLarge))
        }
        Err(ReferenceError::NoMemory) => Err(AllocError),
    }
}

/// What an invocation means whose arguments have the values of the references.
fn judge_resolved(
    alloc: Global,
    user: &User,
    created: &mut Pairs,
    method: Method,
    arguments: TreeObject,
) -> Result<Judgement, AllocError>
    ensures meaning { IfOk result (λ j. meaning_in j ≡ meaning_of_arguments user.now.grants created.old method (resolved arguments)) }
    ensures created { IfOk result (λ j. created_with j created.new ≡ created.old) }
    ensures account { (accounts : ℕ) → All (λ g. g.account < accounts) user.now.grants → IfOk result (λ j. account_is_below accounts j) }
{
    if !are_well_given(method, &arguments) {
        return Ok(Judgement::Refused(MethodError::InvalidArguments));
    }
    match method {
        Method::Echo => Ok(Judgement::Echo(arguments)),
        _ => judge_call(alloc, user, created, method, arguments),
    }
}

/// What an invocation means that calls an account.
fn judge_call(
    alloc: Global,
    user: &User,
    created: &mut Pairs,
    method: Method,
    arguments: TreeObject,
) -> Result<Judgement, AllocError>
    requires { method ≢ Method.Echo }
    ensures meaning { IfOk result (λ j. meaning_in j ≡ meaning_of_call user.now.grants method arguments (call_of arguments created.old method)) }
    ensures created { IfOk result (λ j. created_with j created.new ≡ created.old) }
    ensures account { (accounts : ℕ) → All (λ g. g.account < accounts) user.now.grants → IfOk result (λ j. account_is_below accounts j) }
{
    let Some(grant) = grant_of(&user.grants, &arguments) else {
        return Ok(Judgement::Refused(MethodError::AccountNotFound));
    };
    if grant.read_only && is_set(method) {
        return Ok(Judgement::Refused(MethodError::AccountReadOnly));
    }
    let account = grant.account;
    let with_call = std::mem::replace(created, Pairs::new(Vec::new(alloc)));
    let call = call_from(alloc, method, arguments, with_call)?;
    Ok(Judgement::Call { account, call })
}

/// Whether a method changes an account. Takes no memory.
fn is_set(method: Method) -> bool
    ensures { result ≡ (row method).is_set }
{
    matches!(method, Method::CalendarSet | Method::EventSet)
}
