//! Files of journals whose accounts the configuration lacks.

use crate::unopened::journal_line;
use session_doc::Site;
use std::fs;

/// Tells on standard error of each file in a folder that is named as the journal of an account which the site lacks. Such a file is left as it
/// is. What can't be read of the folder is passed over, since the accounts' own files are opened in it behind this.
pub fn tell_unclaimed(rt: &HostRuntime, folder: &str, site: &Site) {
    let Ok(entries) = fs::read_dir(rt, folder) else {
        return;
    };
    for entry in entries {
        if let Ok(entry) = entry {
            tell_of(rt, site, entry.file_name(), entry.path().as_str());
        }
    }
}

fn tell_of(rt: &HostRuntime, site: &Site, file: &str, path: &str) {
    if let Some(id) = file.strip_suffix(".db")
        && !has_account(site, id)
        && let Ok(line) = journal_line(rt.alloc(), "journal of no account", path)
    {
        let _ = rt.eprintln(line.as_str());
    }
}

fn has_account(site: &Site, id: &str) -> bool {
    for n in 0..site.accounts() {
        if site.account_id(n).as_str() == id {
            return true;
        }
    }
    false
}
