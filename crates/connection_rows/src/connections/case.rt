//! A row as it is read: how the program is run, and what is wanted of it.
use row_table::files::bytes_of;
use row_table::line::words_in;
use row_table::members::counts_at;
use spec_json::tree::Tree;
use std::alloc::{AllocError, Global};

/// A run of the program, and what is wanted of it.
#[derive(Drop)]
pub struct Case {
    /// The words behind the program's name.
    pub words: Vec<String>,
    /// The messages of the input, one behind the other.
    pub messages: Vec<Vec<u8>>,
    /// The calls of `load` that fail, by number from 0.
    pub failing_loads: Vec<u64>,
    /// The status, as its name is written.
    pub status: String,
    /// The pieces of the output, one behind the other: one for each call of `give`.
    pub responses: Vec<Vec<u8>>,
}

impl Case {
    /// The case of two objects: one with `words`, `input` and maybe `failing_loads`, and one with `status` and `output`.
    pub fn read(alloc: Global, asked: &Tree, answer: &Tree) -> Result<Option<Case>, AllocError> {
        let (Some(words), Some(status)) = (asked.text_at("words"), answer.text_at("status")) else {
            return Ok(None);
        };
        let Some(messages) = texts_at(alloc, asked, "input")? else {
            return Ok(None);
        };
        let Some(responses) = texts_at(alloc, answer, "output")? else {
            return Ok(None);
        };
        Ok(Some(Case {
            words: words_in(alloc, words.as_str())?,
            messages,
            failing_loads: counts_at(alloc, asked, "failing_loads")?,
            status: String::from_str(alloc, status.as_str())?,
            responses,
        }))
    }

    /// Whether a connection is served: the words and the configuration are good.
    pub fn is_connection(&self) -> bool {
        match self.words.first() {
            Some(word) => word.as_str() == "stdio"
                && ["Done", "Cut"].contains(&self.status.as_str()),
            None => false,
        }
    }

    /// The bytes of the input.
    pub fn input(&self, alloc: Global) -> Result<Vec<u8>, AllocError> {
        joined(alloc, &self.messages)
    }

    /// The bytes of the first so many responses.
    pub fn first_responses(&self, alloc: Global, count: usize) -> Result<Vec<u8>, AllocError> {
        joined(alloc, &self.responses[..count.min(self.responses.len())])
    }
}

/// These bytes, one behind the other.
fn joined(alloc: Global, parts: &[Vec<u8>]) -> Result<Vec<u8>, AllocError> {
    let mut all = Vec::new(alloc);
    for part in parts {
        all.extend_from_slice(part)?;
    }
    Ok(all)
}

/// The bytes of each item of a list.
fn texts_at(alloc: Global, tree: &Tree, key: &str) -> Result<Option<Vec<Vec<u8>>>, AllocError> {
    let Some(list) = tree.list_at(key) else {
        return Ok(None);
    };
    let mut texts = Vec::new(alloc);
    for item in list {
        texts.push(bytes_of(alloc, item)?)?;
    }
    Ok(Some(texts))
}
