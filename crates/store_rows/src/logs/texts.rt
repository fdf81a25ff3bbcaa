//! What logs tell, as texts.

use object_log::{ChangesError, Page};
use std::alloc::{AllocError, Global};
use std::fmt::Write;

/// A page as text: where it ends, and then its lists. Takes memory for it.
pub fn page_text(alloc: Global, page: Result<Page, ChangesError>) -> Result<String, AllocError> {
    match page {
        Ok(page) => {
            let mut text = format!(in alloc; "until {}", page.until)?;
            push_ids(&mut text, " created", page.created.items())?;
            push_ids(&mut text, " updated", page.updated.items())?;
            push_ids(&mut text, " destroyed", page.destroyed.items())?;
            Ok(text)
        }
        Err(ChangesError::NotRetained) => String::from_str(alloc, "not retained"),
        Err(ChangesError::NoMemory) => Err(AllocError),
    }
}

/// Puts a list of ids behind a text. Takes memory for it.
pub fn push_ids(text: &mut String, name: &str, ids: &[u64]) -> Result<(), AllocError> {
    text.push_str(name)?;
    for id in ids {
        write!(text, " {id}")?;
    }
    Ok(())
}

/// A list of ids as text. Takes memory for it.
pub fn ids_text(alloc: Global, ids: &[u64]) -> Result<String, AllocError> {
    let mut text = String::new(alloc);
    push_ids(&mut text, "ids", ids)?;
    Ok(text)
}

/// An object as text, `none` where there is none. Takes memory for it.
pub fn object_text(alloc: Global, object: Option<&String>) -> Result<String, AllocError> {
    match object {
        Some(object) => object.clone(),
        None => String::from_str(alloc, "none"),
    }
}
