//! The uid that the server supplies (RFC 8984 section 4.1.2).
ghost use Rattle.std.specs.Prelude.{◌≡◌, IfOk};
ghost use Rattle.cal_model.specs.EventObject.{named_uuid, supplied_uid};

use spec_history::entry::Kind;
use spec_json::text::Text;
use std::alloc::{AllocError, Global};
use time_text::object_id_text;
use uuid::Uuid;

/// The uid of an event to which the client gives none: the version 5 UUID of the account's id, a slash and the event's id.
pub(crate) fn supplied_uid(alloc: Global, account: &Text, number: u64) -> Result<Text, AllocError>
    ensures { IfOk result (λ t. t ≡ supplied_uid account.now number) }
{
    let mut name = String::from_str(alloc, account.as_str())?;
    name.push_str("/")?;
    name.push_str(object_id_text(alloc, Kind::Event, number)?.as_str())?;
    named_uuid(alloc, name.as_bytes())
}

// The version 5 UUID of a name in the namespace of URLs (RFC 9562 section 5.5).
fn named_uuid(alloc: Global, name: &[u8]) -> Result<Text, AllocError>
    ensures { IfOk result (λ t. t ≡ named_uuid name.now) }
{
    let id = Uuid::new_v5(&Uuid::NAMESPACE_URL, name);
    let mut buffer = Uuid::encode_buffer();
    Text::from_str(alloc, id.hyphenated().encode_lower(&mut buffer))
}
