//! The bytes of a line.
use row_table::line::unrolled;
use std::alloc::{AllocError, Global};

/// The bytes of a line, in which two hexadecimal digits between `<` and `>` stand for the byte that they write.
///
/// None where the line is no text by `unrolled`. Takes memory for the text and the bytes.
pub fn bytes_in(alloc: Global, line: &str) -> Result<Option<Vec<u8>>, AllocError> {
    let Some(text) = unrolled(alloc, line)? else {
        return Ok(None);
    };
    let mut bytes = Vec::new(alloc);
    for (place, part) in text.split('<').enumerate() {
        match written_byte(part) {
            Some((byte, rest)) if place > 0 => {
                bytes.push(byte)?;
                bytes.extend_from_slice(rest.as_bytes())?;
            }
            _ => {
                if place > 0 {
                    bytes.push(b'<')?;
                }
                bytes.extend_from_slice(part.as_bytes())?;
            }
        }
    }
    Ok(Some(bytes))
}

/// The byte of the two digits before a `>`, and what stands behind it.
fn written_byte(part: &str) -> Option<(u8, &str)> {
    let (digits, rest) = part.split_once('>')?;
    if digits.len() != 2 {
        return None;
    }
    match u8::from_str_radix(digits, 16) {
        Ok(byte) => Some((byte, rest)),
        Err(_) => None,
    }
}
