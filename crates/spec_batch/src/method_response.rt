//! Responses.

use spec_json::text::Text;
use spec_json::tree::Tree;

/// What a method call in a request came to (RFC 8620 section 3.4).
#[derive(Drop)]
pub struct MethodResponse {
    /// The name of the method, or `error`.
    pub name: Text,
    /// What the method answered, or the type of the error.
    pub arguments: Tree,
    /// The client's id of the call.
    pub call_id: Text,
}
