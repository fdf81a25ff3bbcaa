//! What is counted of replies.
ghost use Rattle.std.specs.Prelude.{◌≡◌, ◌≤◌, IfOk, option_map};
ghost use Rattle.spec_json.specs.TreeData.{data_of};
ghost use Rattle.workload.specs.Counts.{count_listed, count_of_ids, create_error, has_more, is_refused_as_clash, is_clash_error, has_created, new_state, next_page_state};

use crate::calls::CREATION_ID;
use spec_calls::call::Reply;
use spec_json::text::Text;
use spec_json::tree::Tree;
use std::alloc::{AllocError, Global};

/// What came of a create.
#[derive(Clone, Copy, Drop)]
pub(crate) struct Outcome {
    pub is_created: bool,
    /// Whether it was refused as a clash.
    pub is_clash: bool,
}

/// What a reply says of the create. Takes no memory.
pub(crate) fn outcome_of(reply: Reply) -> Outcome
    ensures created { result.is_created ≡ has_created reply }
    ensures clash { result.is_clash ≡ is_refused_as_clash reply }
{
    Outcome {
        is_created: has_created(&reply),
        is_clash: is_refused_as_clash(&reply),
    }
}

fn has_created(reply: &Reply) -> bool
    ensures { result ≡ has_created reply.now }
{
    matches!(reply.arguments.get("created"), Some(Tree::Object(_)))
}

fn is_refused_as_clash(reply: &Reply) -> bool
    ensures { result ≡ is_refused_as_clash reply.now }
{
    match create_error(reply) {
        Some(error) => is_clash_error(error),
        None => false,
    }
}

// The SetError of the object of a create.
fn create_error(reply: &Reply) -> Option<&Tree>
    ensures { option_map (λ t. data_of t.now) result ≡ create_error reply.now }
{
    match reply.arguments.get("notCreated") {
        Some(errors) => errors.get(CREATION_ID),
        None => None,
    }
}

fn is_clash_error(error: &Tree) -> bool
    ensures { result ≡ is_clash_error (data_of error.now) }
{
    match error.get("type") {
        Some(Tree::Text(name)) => name.as_str() == "clash",
        _ => false,
    }
}

/// A page of changes.
#[derive(Drop)]
pub(crate) struct Page {
    /// How many ids it has.
    pub ids: u64,
    /// The state that the next page begins at, where there are more changes.
    pub next: Option<Text>,
}

/// The page that a reply has. Takes memory for the state.
pub(crate) fn page_of(alloc: Global, reply: Reply) -> Result<Page, AllocError>
    requires { count_of_ids reply ≤ 500 }
    ensures ids { IfOk result (λ page. page.ids ≡ count_of_ids reply) }
    ensures next { IfOk result (λ page. page.next ≡ next_page_state reply) }
{
    let ids = count_listed(&reply, "created")
        + count_listed(&reply, "updated")
        + count_listed(&reply, "destroyed");
    let next = next_page_state(alloc, &reply)?;
    Ok(Page { ids, next })
}

// How many ids a list of a page has.
fn count_listed(reply: &Reply, key: &str) -> u64
    ensures { result ≡ count_listed key.now reply.now }
{
    match reply.arguments.list_at(key) {
        Some(ids) => ids.len() as u64,
        None => 0,
    }
}

fn next_page_state(alloc: Global, reply: &Reply) -> Result<Option<Text>, AllocError>
    ensures { IfOk result (λ state. state ≡ next_page_state reply.now) }
{
    if has_more(reply) {
        Ok(Some(Text::from_str(alloc, new_state(reply))?))
    } else {
        Ok(None)
    }
}

fn has_more(reply: &Reply) -> bool
    ensures { result ≡ has_more reply.now }
{
    matches!(
        reply.arguments.get("hasMoreChanges"),
        Some(Tree::Truth(true))
    )
}

// The state that a page leads to.
fn new_state(reply: &Reply) -> &str
    ensures { result.now ≡ new_state reply.now }
{
    match reply.arguments.get("newState") {
        Some(Tree::Text(state)) => state.as_str(),
        _ => "",
    }
}
