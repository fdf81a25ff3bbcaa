//! What the fields of a head say.
ghost use Rattle.std.specs.Prelude.{◌≡◌, length, map, Some, None, if◌then◌else◌, option_map, codes, IfOk, fold, ◌&&◌};
ghost use Rattle.std.specs.List.{All, list_any};
ghost use Rattle.std.specs.Str.{IsAscii};
ghost use Rattle.std.specs.Str.Parse.{digits_value};
ghost use Rattle.httparse.specs.Spans.{IsHeaderWithin, header_bytes};
ghost use Rattle.spec_http.specs.Fields.{asks_close, first_value, is_length, length_said, same_word, says_close, token_of, value_if_named, values_of};
ghost use Rattle.http_edge.specs.Reading.{length_shown, length_step};

use crate::token::bearer_token;
use httparse::spans::HeaderSpan;
use spec_json::text::Text;
use std::alloc::{AllocError, Global};

/// What the `Content-Length` fields of a head say together (RFC 9112 section 6.3).
#[derive(Clone, Copy)]
pub enum ContentLength {
    Absent,
    Known(u64),
    Unusable,
}

/// Whether two words are the same in any case of ASCII letters.
pub fn is_same_word(word: &[u8], wanted: &[u8]) -> bool
    ensures { result ≡ same_word word.now wanted.now }
{
    word.eq_ignore_ascii_case(wanted)
}

/// The value of the first field of this name.
pub fn first_of<'a>(head: &'a [u8], fields: &[HeaderSpan], name: &[u8]) -> Option<&'a [u8]>
    requires { All (IsHeaderWithin (length head.now)) fields.now }
    ensures { option_map (λ value. value.now) result ≡ first_value (values_of name.now (map (header_bytes head.now) fields.now)) }
{
    for field in fields {
        if is_same_word(field.name.of(head), name) {
            return Some(field.value.of(head));
        }
    }
    None
}

/// Whether a message of this minor version asks to close (RFC 9112 section 9.6).
pub fn is_closing(minor: u8, head: &[u8], fields: &[HeaderSpan]) -> bool
    requires { All (IsHeaderWithin (length head.now)) fields.now }
    ensures { result ≡ asks_close minor (map (header_bytes head.now) fields.now) }
{
    minor == 0 || has_close(head, fields)
}

// Whether a `Connection` field is `close`.
fn has_close(head: &[u8], fields: &[HeaderSpan]) -> bool
    requires { All (IsHeaderWithin (length head.now)) fields.now }
    ensures { result ≡ list_any says_close (values_of (codes "connection") (map (header_bytes head.now) fields.now)) }
{
    for field in fields {
        if is_close(field.name.of(head), field.value.of(head)) {
            return true;
        }
    }
    false
}

// Whether a field asks to close.
fn is_close(name: &[u8], value: &[u8]) -> bool
    ensures { result ≡ (same_word name.now (codes "connection") && says_close value.now) }
{
    is_same_word(name, b"connection") && is_same_word(value, b"close")
}

/// What the `Content-Length` fields say together.
pub fn content_length(head: &[u8], fields: &[HeaderSpan]) -> ContentLength
    requires { All (IsHeaderWithin (length head.now)) fields.now }
    ensures { length_shown result ≡ length_said (values_of (codes "content-length") (map (header_bytes head.now) fields.now)) }
{
    let mut found = ContentLength::Absent;
    for field in fields {
        found = with_field(found, field.name.of(head), field.value.of(head));
    }
    found
}

// What the fields say with one more.
fn with_field(found: ContentLength, name: &[u8], value: &[u8]) -> ContentLength
    ensures { length_shown result ≡ fold length_step (length_shown found) (value_if_named (codes "content-length") (name.now, value.now)) }
{
    if is_same_word(name, b"content-length") {
        with_value(found, value)
    } else {
        found
    }
}

// What the fields say with one value more.
fn with_value(found: ContentLength, value: &[u8]) -> ContentLength
    ensures { length_shown result ≡ length_step (length_shown found) value.now }
{
    match (found, read_length(value)) {
        (ContentLength::Absent, Some(length)) => ContentLength::Known(length),
        (ContentLength::Known(known), Some(length)) => {
            if length == known {
                ContentLength::Known(known)
            } else {
                ContentLength::Unusable
            }
        }
        _ => ContentLength::Unusable,
    }
}

// The number that 1 to 19 digits write.
fn read_length(value: &[u8]) -> Option<u64>
    ensures { result ≡ (if is_length value.now then Some (digits_value 10 value.now) else None) }
{
    if value.is_empty() || value.len() > 19 {
        return None;
    }
    let mut number: u64 = 0;
    for byte in value {
        if !byte.is_ascii_digit() {
            return None;
        }
        number = number * 10 + (*byte - b'0') as u64;
    }
    Some(number)
}

/// The bearer token of the first `Authorization` field (RFC 6750 section 2.1). Takes memory for it.
pub fn token_in(
    alloc: Global,
    head: &[u8],
    fields: &[HeaderSpan],
) -> Result<Option<Text>, AllocError>
    requires { All (IsHeaderWithin (length head.now)) fields.now }
    ensures { IfOk result (λ token. token ≡ token_of (map (header_bytes head.now) fields.now)) }
{
    match first_of(head, fields, b"authorization") {
        None => Ok(None),
        Some(value) => bearer_token(alloc, value),
    }
}

/// Copies bytes that are ASCII. Takes memory for them.
pub fn ascii_text(alloc: Global, bytes: &[u8]) -> Result<Text, AllocError>
    requires { IsAscii bytes.now }
    ensures { IfOk result (λ text. text ≡ bytes.now) }
{
    match str::from_utf8(bytes) {
        Ok(text) => Text::from_str(alloc, text),
        Err(_) => unreachable!(),
    }
}
