//! Rows of messages that are read, and of responses that are written.
mod findings;
mod given;
mod inputs;
mod responses;

use findings::Findings;
use given::named_in;
use inputs::try_input;
use responses::try_response;
use row_table::line::tree_in;
use row_table::row::Row;
use row_table::trial::NOT_READ;
use spec_json::tree::Tree;
use std::alloc::{AllocError, Global};

/// What first came of a row otherwise than the table has it. Counts the calls that ran out of memory.
pub fn other_than(alloc: Global, row: &Row, wants: &mut u64) -> Result<Option<String>, AllocError> {
    let mut findings = Findings::new();
    try_row(alloc, row, &mut findings)?;
    *wants = wants.saturating_add(findings.wants());
    Ok(findings.into_other())
}

/// Tries a row. A text is read as messages, and an object is written as a response.
fn try_row(alloc: Global, row: &Row, findings: &mut Findings) -> Result<(), AllocError> {
    let Some(asked) = tree_in(alloc, row.asked.as_str())? else {
        return not_read(alloc, findings);
    };
    let Some(answer) = tree_in(alloc, row.answer.as_str())? else {
        return not_read(alloc, findings);
    };
    match (&asked, &answer) {
        (Tree::Text(input), Tree::List(list)) => match named_in(alloc, list)? {
            Some(wanted) => try_input(alloc, input.as_str().as_bytes(), &wanted, findings),
            None => not_read(alloc, findings),
        },
        (Tree::Object(parts), Tree::Text(wanted)) => {
            try_response(alloc, parts, wanted.as_str(), findings)
        }
        _ => not_read(alloc, findings),
    }
}

fn not_read(alloc: Global, findings: &mut Findings) -> Result<(), AllocError> {
    findings.find(String::from_str(alloc, NOT_READ)?);
    Ok(())
}
