//! What changed since a state (RFC 8620 section 5.2).
ghost use Rattle.std.specs.Prelude.{◌≡◌, ◌==◌, ◌∷◌, [], IfOk, codes, map, not, option_map, true, unsigned_abs};
ghost use Rattle.account_core.specs.Ledger.{base, ledger_entries};
ghost use Rattle.account_core.specs.PageObject.{page_object};
ghost use Rattle.cal_model.specs.Answer.{changes_answer};
ghost use Rattle.spec_history.specs.History.{changes_of, count_of_kind};
ghost use Rattle.spec_history.specs.States.{state_in_generation, state_text};
ghost use Rattle.spec_json.specs.Data.{text, truth};
ghost use Rattle.spec_json.specs.TreeData.{keyed};
ghost use Rattle.spec_queries.specs.States.{id_list, is_maximum};

use crate::ledger::Ledger;
use crate::reply::{refusal, reply};
use object_log::{ChangesError, Page};
use query_methods::ids::id_list;
use spec_calls::call::{ChangesArguments, MethodError, Reply};
use spec_core::numbers::MAX_UNSIGNED_INT;
use spec_history::entry::Kind;
use spec_history::state::State;
use spec_json::lists::Pairs;
use spec_json::num::Num;
use spec_json::text::Text;
use spec_json::tree::Tree;
use std::alloc::AllocError;
use time_text::{number_named, state_text};

/// Answers what changed of a kind since a state. A maximum that isn't one is told before a state that isn't known.
pub fn changes(ledger: &Ledger, arguments: &ChangesArguments) -> Result<Reply, AllocError>
    ensures { IfOk result (λ r. r ≡ changes_answer (base ledger.now) (ledger_entries ledger.now) arguments.now) }
{
    let alloc = ledger.alloc;
    let store = &ledger.store;
    let kind = arguments.kind;
    let since = &arguments.since;
    if !is_maximum(&arguments.max) {
        return Ok(refusal(alloc, store, MethodError::InvalidArguments));
    }
    let Some(number) = number_named(ledger.generation, since.as_str().as_bytes()) else {
        return Ok(refusal(alloc, store, MethodError::CannotCalculateChanges));
    };
    let page = match store.changes(kind, number, limit(&arguments.max)) {
        Ok(page) => page,
        Err(ChangesError::NotRetained) => {
            return Ok(refusal(alloc, store, MethodError::CannotCalculateChanges));
        }
        Err(ChangesError::NoMemory) => return Err(AllocError),
    };
    let arguments = page_tree(ledger, kind, since, &page)?;
    Ok(reply(store, arguments, Pairs::new(Vec::new(alloc))))
}

fn is_maximum(most: &Option<Num>) -> bool
    ensures { result ≡ is_maximum most.now }
{
    match most {
        Some(number) => number.get() >= 1 && number.get() <= i128::from(MAX_UNSIGNED_INT),
        None => true,
    }
}

fn limit(most: &Option<Num>) -> Option<u64>
    requires { is_maximum most.now ≡ true }
    ensures { result ≡ option_map unsigned_abs most.now }
{
    match most {
        Some(number) => Some(number.get() as u64),
        None => None,
    }
}

// The arguments that tell a page.
fn page_tree(ledger: &Ledger, kind: Kind, since: &Text, page: &Page) -> Result<Tree, AllocError>
    ensures { IfOk result (λ t. t ≡ page_object (base ledger.now) kind since.now (count_of_kind (changes_of (ledger_entries ledger.now)) kind) page.now) }
{
    let mut members = leading(ledger, kind, page)?;
    members.append(&mut trailing(ledger, kind, since, page)?)?;
    Tree::object(ledger.alloc, members)
}

// The arguments up to whether there are more changes, in byte order of their names.
fn leading(
    ledger: &Ledger,
    kind: Kind,
    page: &Page,
) -> Result<Vec<(&'static str, Tree)>, AllocError>
    ensures { IfOk result (λ ms. map keyed ms.items ≡
        (codes "accountId", text (base ledger.now).account_id)
        ∷ (codes "created", id_list kind page.now.created)
        ∷ (codes "destroyed", id_list kind page.now.destroyed)
        ∷ (codes "hasMoreChanges", truth (not (page.now.until == count_of_kind (changes_of (ledger_entries ledger.now)) kind))) ∷ []) }
{
    let alloc = ledger.alloc;
    let id = Tree::Text(ledger.id.copy()?);
    let created = id_list(alloc, kind, page.created.items())?;
    let destroyed = id_list(alloc, kind, page.destroyed.items())?;
    let has_more = Tree::Truth(page.until != ledger.store.count(kind));
    Ok(vec![in alloc;
        ("accountId", id),
        ("created", created),
        ("destroyed", destroyed),
        ("hasMoreChanges", has_more),
    ]?)
}

// The arguments after whether there are more changes, in byte order of their names.
fn trailing(
    ledger: &Ledger,
    kind: Kind,
    since: &Text,
    page: &Page,
) -> Result<Vec<(&'static str, Tree)>, AllocError>
    ensures { IfOk result (λ ms. map keyed ms.items ≡
        (codes "newState", text (state_text (state_in_generation (base ledger.now).generation page.now.until)))
        ∷ (codes "oldState", text since.now)
        ∷ (codes "updated", id_list kind page.now.updated) ∷ []) }
{
    let alloc = ledger.alloc;
    let end = State {
        generation: ledger.generation,
        number: page.until,
    };
    let new_state = Tree::Text(state_text(alloc, end)?);
    let old_state = Tree::Text(since.copy()?);
    let updated = id_list(alloc, kind, page.updated.items())?;
    Ok(vec![in alloc;
        ("newState", new_state),
        ("oldState", old_state),
        ("updated", updated),
    ]?)
}
