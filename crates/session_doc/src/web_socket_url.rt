//! The field `webSocketUrl`.
ghost use Rattle.std.specs.Prelude.{◌≡◌, IfErr, IfOk, Ok};
ghost use Rattle.spec_site.specs.Configuration.{is_web_socket_url, web_socket_url_in};
ghost use Rattle.spec_json.specs.TreeData.{data_of};
ghost use Rattle.spec_site.specs.declared.field.Field.TheVariants.{WebSocketUrl};
ghost use Rattle.session_doc.specs.Reports.{ReportsField};

use crate::configuration_error::{ConfigurationError, bad};
use spec_json::text::Text;
use spec_json::tree::Tree;
use spec_site::field::Field;
use spec_site::limits::MAX_BASE_URL_BYTES;

/// Where clients find WebSockets: a text of at most 1000 bytes that begins with `ws://` or `wss://`, or nowhere, where the field is absent. Takes memory for a copy of it.
pub(crate) fn read_web_socket_url(tree: &Tree) -> Result<Option<Text>, ConfigurationError>
    ensures ok { IfOk result (λ url. web_socket_url_in (data_of tree.now) ≡ Ok url) }
    ensures err { IfErr result (λ error. ReportsField WebSocketUrl error (web_socket_url_in (data_of tree.now))) }
{
    let Some(value) = tree.get("webSocketUrl") else {
        return Ok(None);
    };
    let Some(url) = value.as_text() else {
        return Err(bad(Field::WebSocketUrl, 0));
    };
    if !is_web_socket_url(url) {
        return Err(bad(Field::WebSocketUrl, 0));
    }
    Ok(Some(url.copy()?))
}

fn is_web_socket_url(url: &Text) -> bool
    ensures { result ≡ is_web_socket_url url.now }
{
    let url = url.as_str();
    url.len() <= MAX_BASE_URL_BYTES && (url.starts_with("ws://") || url.starts_with("wss://"))
}
