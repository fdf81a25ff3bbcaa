//! Names and bearer tokens.
ghost use Rattle.std.specs.Prelude.{◌≡◌};
ghost use Rattle.std.specs.Char.{is_ascii_graphic};
ghost use Rattle.std.specs.List.{list_all};
ghost use Rattle.spec_core.specs.Names.{is_name, is_token};

/// The most bytes of a name and of a token.
pub const MAX_NAME_BYTES: usize = 255;

/// Whether this is a name: 1 to 255 bytes. Takes no memory.
pub fn is_name(text: &str) -> bool
    ensures { result ≡ is_name text.now }
{
    !text.is_empty() && text.len() <= MAX_NAME_BYTES
}

/// Whether this is a bearer token: 1 to 255 bytes from `!` to `~` (RFC 6750 section 2.1). Takes no memory.
pub fn is_token(bytes: &[u8]) -> bool
    ensures { result ≡ is_token bytes.now }
{
    !bytes.is_empty() && bytes.len() <= MAX_NAME_BYTES && are_graphic(bytes)
}

fn are_graphic(bytes: &[u8]) -> bool
    ensures { result ≡ list_all is_ascii_graphic bytes.now }
{
    bytes.iter().all(|byte| byte.is_ascii_graphic())
}
