//! The capabilities of the server and of its accounts.
ghost use Rattle.std.specs.Prelude.{◌≡◌, [], IfOk, Some, map, option_map, pos};
ghost use Rattle.spec_json.specs.Data.{members_of, object, whole};
ghost use Rattle.spec_site.specs.SessionObject.{account_capabilities, capabilities, core_capability, own_capabilities, web_socket_capability};
ghost use Rattle.spec_json.specs.TreeData.{data_of, keyed};

use spec_core::capability::{AVAILABILITY, CALENDARS, CORE, SLOTS, WEBSOCKET};
use spec_core::limits::{
    MAX_CALLS_IN_REQUEST, MAX_OBJECTS_IN_GET, MAX_OBJECTS_IN_SET, MAX_SIZE_REQUEST,
};
use spec_json::num::Num;
use spec_json::text::Text;
use spec_json::tree::{Tree, TreeList, TreeObject};
use std::alloc::{AllocError, Global};

/// The capabilities of the server (RFC 8620 section 2, draft JMAP for Calendars), that of WebSockets where these have an address (RFC 8887 section 3). Takes memory for them.
pub(crate) fn capabilities(alloc: Global, web_socket_url: Option<&Text>) -> Result<Tree, AllocError>
    ensures { IfOk result (λ tree. data_of tree ≡ capabilities (option_map (λ url. url.now) web_socket_url.entry)) }
{
    match web_socket_url {
        Some(url) => with_web_sockets(alloc, url),
        None => Tree::object(alloc, own_capabilities(alloc)?),
    }
}

fn with_web_sockets(alloc: Global, url: &Text) -> Result<Tree, AllocError>
    ensures { IfOk result (λ tree. data_of tree ≡ capabilities (Some url.now)) }
{
    let mut members = own_capabilities(alloc)?;
    members.push((WEBSOCKET, web_socket_capability(alloc, url)?))?;
    Tree::object(alloc, members)
}

// The capabilities of each site, in byte order of their names.
fn own_capabilities(alloc: Global) -> Result<Vec<(&'static str, Tree)>, AllocError>
    ensures { IfOk result (λ ms. map keyed ms.items ≡ own_capabilities) }
{
    let core = core_capability(alloc)?;
    let members = vec![in alloc;
        (SLOTS, no_members(alloc)),
        (CALENDARS, no_members(alloc)),
        (CORE, core),
        (AVAILABILITY, no_members(alloc)),
    ]?;
    Ok(members)
}

// Where WebSockets are, and that changes are told on them.
fn web_socket_capability(alloc: Global, url: &Text) -> Result<Tree, AllocError>
    ensures { IfOk result (λ tree. data_of tree ≡ web_socket_capability url.now) }
{
    let url = Tree::Text(url.copy()?);
    let members = vec![in alloc; ("supportsPush", Tree::Truth(true)), ("url", url)]?;
    Tree::object(alloc, members)
}

/// The capabilities of an account. Takes memory for them.
pub(crate) fn account_capabilities(alloc: Global) -> Result<Tree, AllocError>
    ensures { IfOk result (λ tree. data_of tree ≡ account_capabilities) }
{
    let members = vec![in alloc;
        (SLOTS, no_members(alloc)),
        (CALENDARS, no_members(alloc)),
        (AVAILABILITY, no_members(alloc)),
    ]?;
    Tree::object(alloc, members)
}

// The limits of the server.
fn core_capability(alloc: Global) -> Result<Tree, AllocError>
    ensures { IfOk result (λ tree. data_of tree ≡ core_capability) }
{
    let collation = Tree::Text(Text::from_str(alloc, "i;octet")?);
    let collations = Tree::List(TreeList::new(vec![in alloc; collation]?));
    let members = vec![in alloc;
        ("collationAlgorithms", collations),
        ("maxCallsInRequest", number(MAX_CALLS_IN_REQUEST)),
        ("maxConcurrentRequests", number(16)),
        ("maxConcurrentUpload", number(0)),
        ("maxObjectsInGet", number(MAX_OBJECTS_IN_GET)),
        ("maxObjectsInSet", number(MAX_OBJECTS_IN_SET)),
        ("maxSizeRequest", number(MAX_SIZE_REQUEST)),
        ("maxSizeUpload", number(0)),
    ]?;
    Tree::object(alloc, members)
}

fn number(value: usize) -> Tree
    ensures { data_of result ≡ whole (pos value) }
{
    Tree::Whole(Num::new(value as i128))
}

fn no_members(alloc: Global) -> Tree
    ensures { data_of result ≡ object (members_of []) }
{
    Tree::Object(TreeObject::new(Vec::new(alloc)))
}
