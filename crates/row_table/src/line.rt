//! The lines of a table.
use json_edge::read::{ReadError, read_tree};
use spec_json::tree::Tree;
use std::alloc::{AllocError, Global};
use std::fmt::Write;

/// The most times that a text stands.
const MAX_TIMES: u32 = 10_000_000;

/// The text of a line, in which a number, a blank and a text between backquotes stand for the text so many times; `%` in the text stands
/// for which time it is, from 1.
///
/// None where something else stands between backquotes, or a number above 10,000,000. Takes memory for the text.
pub fn unrolled(alloc: Global, line: &str) -> Result<Option<String>, AllocError> {
    let mut text = String::new(alloc);
    for (place, part) in line.split('`').enumerate() {
        if place % 2 == 0 {
            text.push_str(part)?;
        } else {
            match repeated(alloc, part)? {
                Some(part) => text.push_str(part.as_str())?,
                None => return Ok(None),
            }
        }
    }
    Ok(Some(text))
}

fn repeated(alloc: Global, part: &str) -> Result<Option<String>, AllocError> {
    let Some((times, text)) = part.split_once(' ') else {
        return Ok(None);
    };
    match times.parse::<u32>() {
        Ok(times) if times <= MAX_TIMES => {
            if text.contains('%') {
                Ok(Some(counted(alloc, text, times)?))
            } else {
                Ok(Some(text.repeat(alloc, times as usize)?))
            }
        }
        _ => Ok(None),
    }
}

fn counted(alloc: Global, text: &str, times: u32) -> Result<String, AllocError> {
    let mut all = String::new(alloc);
    for turn in 0..times {
        push_counted(&mut all, text, turn + 1)?;
    }
    Ok(all)
}

fn push_counted(all: &mut String, text: &str, turn: u32) -> Result<(), AllocError> {
    for (place, part) in text.split('%').enumerate() {
        if place > 0 {
            write!(all, "{turn}")?;
        }
        all.push_str(part)?;
    }
    Ok(())
}

/// The JSON value of the text of a line, where it is one whose numbers are whole. Takes memory for it.
pub fn tree_in(alloc: Global, line: &str) -> Result<Option<Tree>, AllocError> {
    let Some(text) = unrolled(alloc, line)? else {
        return Ok(None);
    };
    match read_tree(alloc, text.as_str().as_bytes()) {
        Ok(tree) => Ok(Some(tree)),
        Err(ReadError::NotJson | ReadError::NotWhole) => Ok(None),
        Err(ReadError::NoMemory) => Err(AllocError),
    }
}

/// The words of a line between its blanks. Takes memory for them.
pub fn words_in(alloc: Global, line: &str) -> Result<Vec<String>, AllocError> {
    let mut words = Vec::new(alloc);
    for word in line.split(' ') {
        words.push(String::from_str(alloc, word)?)?;
    }
    Ok(words)
}
