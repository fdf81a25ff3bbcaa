//! Queries of events, what changed of their results, and when the owner of an account is busy.
ghost use Rattle.std.specs.Prelude.{◌≡◌, [], IfErr, IfOk, None, OnOk, Option};
ghost use Rattle.account_core.specs.Ledger.{base, ledger_entries};
ghost use Rattle.cal_model.specs.Answer.{answered, availability_answer, query_answer, query_changes_answer, unless_error};
ghost use Rattle.query_methods.specs.Reports.{Reports};
ghost use Rattle.spec_calls.specs.declared.call.MethodError.{MethodError as AnyError};
ghost use Rattle.spec_json.specs.declared.tree.Tree.{Tree as AnyTree};
ghost use Rattle.spec_queries.specs.Queries.{events_asked, occurrences_asked};

use crate::ledger::Ledger;
use crate::reply::{refusal, reply};
use expanded_query::expanded_query;
use query_methods::error::QueryError;
use spec_calls::call::{
    AvailabilityArguments, Criteria, MethodError, Paging, QueryArguments, QueryChangesArguments,
    Reply,
};
use spec_json::lists::Pairs;
use spec_json::tree::Tree;
use std::alloc::AllocError;

/// Answers which events a query finds, or which occurrences where each is a result of its own (RFC 8620 section 5.5).
pub fn query(ledger: &Ledger, arguments: &QueryArguments) -> Result<Reply, AllocError>
    ensures { IfOk result (λ r. r ≡ query_answer (base ledger.now) (ledger_entries ledger.now) arguments.now) }
{
    if arguments.expand {
        find_occurrences(ledger, &arguments.criteria, &arguments.paging)
    } else {
        find_events(ledger, &arguments.criteria, &arguments.paging)
    }
}

fn find_events(ledger: &Ledger, criteria: &Criteria, paging: &Paging) -> Result<Reply, AllocError>
    ensures { IfOk result (λ r. r ≡ query_answer (base ledger.now) (ledger_entries ledger.now) (events_asked criteria.now paging.now)) }
{
    let found = query_methods::query::query(ledger.alloc, &ledger.events(), criteria, paging);
    told(ledger, found)
}

fn find_occurrences(
    ledger: &Ledger,
    criteria: &Criteria,
    paging: &Paging,
) -> Result<Reply, AllocError>
    ensures { IfOk result (λ r. r ≡ query_answer (base ledger.now) (ledger_entries ledger.now) (occurrences_asked criteria.now paging.now)) }
{
    let found = expanded_query(ledger.alloc, &ledger.events(), criteria, paging);
    told(ledger, found)
}

/// Answers what changed of a query's result since a state (RFC 8620 section 5.6).
pub fn query_changes(
    ledger: &Ledger,
    arguments: &QueryChangesArguments,
) -> Result<Reply, AllocError>
    ensures { IfOk result (λ r. r ≡ query_changes_answer (base ledger.now) (ledger_entries ledger.now) arguments.now) }
{
    let changed = query_methods::query_changes::query_changes(
        ledger.alloc,
        &ledger.events(),
        arguments,
    );
    told(ledger, changed)
}

/// Answers when the owner of the account is busy (draft JMAP for Calendars).
pub fn availability(ledger: &Ledger, arguments: &AvailabilityArguments) -> Result<Reply, AllocError>
    ensures { IfOk result (λ r. r ≡ availability_answer (base ledger.now) (ledger_entries ledger.now) arguments.now) }
{
    let alloc = ledger.alloc;
    match availability_method::availability(alloc, &ledger.events(), arguments)? {
        Some(periods) => Ok(reply(&ledger.store, periods, Pairs::new(Vec::new(alloc)))),
        None => Ok(refusal(alloc, &ledger.store, MethodError::InvalidArguments)),
    }
}

// The reply that tells what a query came to.
fn told(ledger: &Ledger, found: Result<Tree, QueryError>) -> Result<Reply, AllocError>
    ensures { (refused : Option AnyError) (arguments : AnyTree) → IfOk found (λ t. t ≡ arguments) → OnOk found (refused ≡ None) → IfErr found (λ e. Reports e refused)
        → IfOk result (λ r. r ≡ unless_error (ledger_entries ledger.now) refused (answered (ledger_entries ledger.now) arguments [])) }
{
    match found {
        Ok(arguments) => {
            let created = Pairs::new(Vec::new(ledger.alloc));
            Ok(reply(&ledger.store, arguments, created))
        }
        Err(QueryError::Method(error)) => Ok(refusal(ledger.alloc, &ledger.store, error)),
        Err(QueryError::NoMemory) => Err(AllocError),
    }
}
