//! What a message asks for, by its token, its path and its method.
ghost use Rattle.std.specs.Prelude.{◌≡◌, ◌<◌, IfOk, IfSome, length, None, Some, option_and_then};
ghost use Rattle.spec_http.specs.Responses.{IsStatus};
ghost use Rattle.spec_connection.specs.Routes as http;
ghost use Rattle.spec_json.specs.Json.{text_of};
ghost use Rattle.spec_site.specs.Configuration.{Site as Described, user_of_token};
ghost use Rattle.spec_json.specs.TreeData.{data_of};
ghost use Rattle.conn_serve.specs.Answering.{IsRouteIn, route_shown};
ghost use Rattle.http_edge.specs.Reading.{message_shown, response_shown};

use http_edge::bytes::Bytes;
use http_edge::message::Message;
use http_edge::response::Response;
use json_edge::write::tree_text;
use session_doc::Site;
use spec_json::text::Text;
use spec_json::tree::Tree;
use std::alloc::{AllocError, Global};

/// Where the session object is (RFC 8620 section 2.2).
const SESSION_PATH: &str = "/.well-known/jmap";
/// Where requests go, as the session object says (RFC 8620 section 2, `apiUrl`).
const API_PATH: &str = "/jmap";

/// What a message asks for.
#[derive(Drop)]
pub(crate) enum Route {
    /// A response that no call has a part in.
    Direct(Response),
    /// The answer to a JMAP request of the user of this number.
    Api(u32),
}

/// The route of a message, where the connection ends behind its response or doesn't. Takes memory for a response.
pub(crate) fn route_of(
    alloc: Global,
    site: &Site,
    message: &Message,
    close: bool,
) -> Result<Route, AllocError>
    ensures route { IfOk result (λ r. route_shown r ≡ http.route site.now close (message_shown message.now)) }
    ensures within { IfOk result (λ r. IsRouteIn site.now r) }
{
    match user_of(site, &message.token) {
        Some(user) => route_of_user(alloc, site, message, close, user),
        None => Ok(bare(alloc, 401, close)),
    }
}

/// The user whose token was shown.
pub(crate) fn user_of(site: &Site, token: &Option<Text>) -> Option<u32>
    ensures number { result ≡ option_and_then (user_of_token site.now) token.now }
    ensures there { IfSome result (λ n. n < length site.now.users) }
{
    match token {
        Some(token) => site.user_of(token),
        None => None,
    }
}

fn route_of_user(
    alloc: Global,
    site: &Site,
    message: &Message,
    close: bool,
    user: u32,
) -> Result<Route, AllocError>
    requires { user < length site.now.users }
    ensures route { IfOk result (λ r. route_shown r ≡ http.route_of_user site.now close (message_shown message.now) (Some user)) }
    ensures within { IfOk result (λ r. IsRouteIn site.now r) }
{
    let path = message.path.as_slice();
    let method = message.method.as_str();
    if path == SESSION_PATH.as_bytes() {
        if method == "GET" {
            session(alloc, site, user, close)
        } else {
            not_allowed(alloc, "GET", close)
        }
    } else if path == API_PATH.as_bytes() {
        if method == "POST" {
            Ok(Route::Api(user))
        } else {
            not_allowed(alloc, "POST", close)
        }
    } else {
        Ok(bare(alloc, 404, close))
    }
}

// A response without a body.
fn bare(alloc: Global, status: u16, close: bool) -> Route
    requires { IsStatus status }
    ensures route { route_shown result ≡ http.direct (http.bare status None close) }
    ensures status { (site : Described) → IsRouteIn site result }
{
    Route::Direct(Response {
        status,
        problem: false,
        allow: None,
        close,
        body: Bytes::from_vec(Vec::new(alloc)),
    })
}

// The path takes another method than the message has.
fn not_allowed(alloc: Global, method: &str, close: bool) -> Result<Route, AllocError>
    ensures route { IfOk result (λ r. route_shown r ≡ http.direct (http.bare 405 (Some method.now) close)) }
    ensures status { IfOk result (λ r. (site : Described) → IsRouteIn site r) }
{
    Ok(Route::Direct(Response {
        status: 405,
        problem: false,
        allow: Some(Text::from_str(alloc, method)?),
        close,
        body: Bytes::from_vec(Vec::new(alloc)),
    }))
}

// The session object of a user.
fn session(alloc: Global, site: &Site, user: u32, close: bool) -> Result<Route, AllocError>
    requires { user < length site.now.users }
    ensures route { IfOk result (λ r. route_shown r ≡ http.direct (http.session_response site.now close user)) }
    ensures within { IfOk result (λ r. IsRouteIn site.now r) }
{
    let tree = site.session_tree(alloc, user)?;
    Ok(Route::Direct(success(alloc, &tree, close)?))
}

/// A response whose body is the text of this tree.
pub(crate) fn success(alloc: Global, tree: &Tree, close: bool) -> Result<Response, AllocError>
    ensures { IfOk result (λ r. response_shown r ≡ http.success close (text_of (data_of tree.now))) }
{
    Ok(Response {
        status: 200,
        problem: false,
        allow: None,
        close,
        body: Bytes::from_vec(tree_text(alloc, tree)?),
    })
}

/// A response whose body is a problem object (RFC 7807).
pub(crate) fn with_problem(alloc: Global, tree: &Tree, close: bool) -> Result<Response, AllocError>
    ensures { IfOk result (λ r. response_shown r ≡ http.with_problem close (text_of (data_of tree.now))) }
{
    Ok(Response {
        status: 400,
        problem: true,
        allow: None,
        close,
        body: Bytes::from_vec(tree_text(alloc, tree)?),
    })
}
