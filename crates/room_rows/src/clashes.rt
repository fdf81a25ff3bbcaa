//! Rows of pairs of series, and what they share first.
use crate::series::series_in;
use residue_clash::{Shared, first_self_shared, first_shared};
use spec_json::tree::Tree;
use std::alloc::{AllocError, Global};
use std::fmt::Write;

/// What the series at `a` and `b` share first, or that at `a` with itself.
pub fn told(alloc: Global, asked: &Tree, times: u32) -> Result<String, AllocError> {
    let Some(first) = asked.get("a") else {
        return String::from_str(alloc, "the row asks for nothing");
    };
    let Some(a) = series_in(alloc, first)? else {
        return String::from_str(alloc, "a is no series that may be booked");
    };
    match asked.get("b") {
        Some(second) => match series_in(alloc, second)? {
            Some(b) => {
                let mut found = first_shared(&a, &b);
                for _ in 1..times {
                    found = first_shared(&a, &b);
                }
                text_of(alloc, found)
            }
            None => String::from_str(alloc, "b is no series that may be booked"),
        },
        None => {
            let mut found = first_self_shared(&a);
            for _ in 1..times {
                found = first_self_shared(&a);
            }
            text_of(alloc, found)
        }
    }
}

/// The day and the second of what was found.
fn text_of(alloc: Global, found: Option<Shared>) -> Result<String, AllocError> {
    let mut text = String::new(alloc);
    match found {
        Some(at) => write!(&mut text, "day {} second {}", at.day(), at.second())?,
        None => text.push_str("none")?,
    }
    Ok(text)
}
