//! The words of rows.
use std::alloc::{AllocError, Global};

/// The words of a text. Takes memory for the list of them.
pub fn words_of(alloc: Global, text: &str) -> Result<Vec<&str>, AllocError> {
    let mut words = Vec::new(alloc);
    for word in text.split_whitespace() {
        words.push(word)?;
    }
    Ok(words)
}

/// The words of a text with a blank before each. Takes memory for them.
pub fn evenly_spaced(alloc: Global, text: &str) -> Result<String, AllocError> {
    let mut words = String::new(alloc);
    for word in text.split_whitespace() {
        words.push(' ')?;
        words.push_str(word)?;
    }
    Ok(words)
}

/// The number that a word is, in decimal digits. Takes no memory.
pub fn number(word: &str) -> Option<u64> {
    word.parse::<u64>().ok()
}
