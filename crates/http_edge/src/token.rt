//! Bearer tokens.
ghost use Rattle.std.specs.Prelude.{◌≡◌, IfOk};
ghost use Rattle.spec_core.specs.Names.{is_token};
ghost use Rattle.spec_http.specs.Fields.{bearer_token};

use crate::fields::{ascii_text, is_same_word};
use spec_json::text::Text;
use std::alloc::{AllocError, Global};

/// The token that the value of an `Authorization` field shows (RFC 6750 section 2.1). Takes memory for it.
#[tactic(auto, using(crate::proofs::Ascii::token_ascii))]
pub fn bearer_token(alloc: Global, value: &[u8]) -> Result<Option<Text>, AllocError>
    ensures { IfOk result (λ token. token ≡ bearer_token value.now) }
{
    if value.len() < 7 {
        return Ok(None);
    }
    let (scheme, token) = value.split_at(7);
    if !is_same_word(scheme, b"bearer ") || !is_token_text(token) {
        return Ok(None);
    }
    Ok(Some(ascii_text(alloc, token)?))
}

// Whether the bytes are 1 to 255 from `!` to `~`.
fn is_token_text(bytes: &[u8]) -> bool
    ensures { result ≡ is_token bytes.now }
{
    if bytes.is_empty() || bytes.len() > 255 {
        return false;
    }
    for byte in bytes {
        if !byte.is_ascii_graphic() {
            return false;
        }
    }
    true
}
