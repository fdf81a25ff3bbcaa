//! Rows of configurations: their bytes, and the session objects of their users or the first bad field.
use crate::sites::lookups::lookups_differ;
use json_edge::read::{ReadError, read_tree};
use row_table::answers::text_of;
use session_doc::{ConfigurationError, Site};
use std::alloc::{AllocError, Global};

/// What a configuration comes to: the session objects of its users in a list, or the first bad field and the place of its first bad
/// item.
pub fn configured(alloc: Global, bytes: &[u8]) -> Result<String, AllocError> {
    match Site::read(alloc, bytes) {
        Ok(site) => site_text(alloc, &site, bytes),
        Err(ConfigurationError::Bad { field, index }) => {
            let field = field.name();
            format!(in alloc; "{field} {index}")
        }
        Err(ConfigurationError::NoMemory) => Err(AllocError),
    }
}

/// The session objects of the site without a configuration.
pub fn built_in(alloc: Global) -> Result<String, AllocError> {
    sessions(alloc, &Site::built_in(alloc)?)
}

/// The session objects, where users and accounts are found as the configuration has them.
fn site_text(alloc: Global, site: &Site, bytes: &[u8]) -> Result<String, AllocError> {
    match read_tree(alloc, bytes) {
        Ok(tree) => match lookups_differ(alloc, site, &tree)? {
            Some(other) => Ok(other),
            None => sessions(alloc, site),
        },
        Err(ReadError::NotJson | ReadError::NotWhole) => String::from_str(alloc, "no JSON"),
        Err(ReadError::NoMemory) => Err(AllocError),
    }
}

fn sessions(alloc: Global, site: &Site) -> Result<String, AllocError> {
    let mut text = String::from_str(alloc, "[")?;
    for user in 0..site.users() {
        if user > 0 {
            text.push_str(",")?;
        }
        let session = site.session_tree(alloc, user)?;
        text.push_str(text_of(alloc, &session)?.as_str())?;
    }
    text.push_str("]")?;
    Ok(text)
}
