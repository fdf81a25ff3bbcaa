//! The limits of a head, beyond which it is refused (RFC 9110 section 5.4, RFC 6585 section 5), and of what is read ahead.
ghost use Rattle.std.specs.Prelude.{◌≡◌, ◌+◌};
ghost use Rattle.spec_http.specs.declared.limits.TheConstants.{MAX_FIELDS, MAX_LINES};

/// The most bytes of a head.
pub const MAX_HEAD: usize = 16_384;

/// The most fields of a head.
pub const MAX_FIELDS: usize = 64;

/// The most line feeds of a head: that of the request line, those of the fields, and that of the empty line.
pub const MAX_LINES: usize = 66;

/// The most bytes that are asked of a source at once.
pub const PIECE: usize = 16_384;

/// A head with as many fields as it may have isn't refused for its line feeds. A law; it does nothing.
pub fn fields_have_their_lines()
    ensures { MAX_LINES ≡ MAX_FIELDS + 2 }
{}
