//! The field `baseUrl`.
ghost use Rattle.std.specs.Prelude.{◌≡◌, IfErr, IfOk, Ok};
ghost use Rattle.spec_site.specs.Configuration.{base_url_in, is_base_url};
ghost use Rattle.spec_json.specs.TreeData.{data_of};
ghost use Rattle.spec_site.specs.declared.field.Field.TheVariants.{BaseUrl};
ghost use Rattle.session_doc.specs.Reports.{ReportsField};

use crate::configuration_error::{ConfigurationError, bad};
use spec_json::text::Text;
use spec_json::tree::Tree;
use spec_site::field::Field;
use spec_site::limits::MAX_BASE_URL_BYTES;

/// What the server's addresses begin with: a text of 1 to 1000 bytes. Takes memory for a copy of it.
pub(crate) fn read_base_url(tree: &Tree) -> Result<Text, ConfigurationError>
    ensures ok { IfOk result (λ text. base_url_in (data_of tree.now) ≡ Ok text) }
    ensures err { IfErr result (λ error. ReportsField BaseUrl error (base_url_in (data_of tree.now))) }
{
    let Some(text) = tree.text_at("baseUrl") else {
        return Err(bad(Field::BaseUrl, 0));
    };
    if !is_base_url(text) {
        return Err(bad(Field::BaseUrl, 0));
    }
    Ok(text.copy()?)
}

fn is_base_url(text: &Text) -> bool
    ensures { result ≡ is_base_url text.now }
{
    !text.as_str().is_empty() && text.as_str().len() <= MAX_BASE_URL_BYTES
}
