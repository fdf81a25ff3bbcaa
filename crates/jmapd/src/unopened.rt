//! What an operator is told of a journal that isn't opened.
ghost use Rattle.std.specs.Prelude.{◌≡◌, IfOk, option_map, string_bytes};
ghost use Rattle.jmapd.specs.Messages.{journal_line, unopened_words};

use sql_keeper::open::OpenError;
use std::alloc::{AllocError, Global};

/// Tells on standard error why the journal of a name isn't opened, where memory suffices for the line.
pub fn tell_unopened(rt: &HostRuntime, error: OpenError, name: &str) {
    if let Some(words) = unopened_words(error) {
        if let Ok(line) = journal_line(rt.alloc(), words, name) {
            let _ = rt.eprintln(line.as_str());
        }
    }
}

/// Why a journal isn't opened, in an operator's words, or `None` where memory was wanted.
fn unopened_words(error: OpenError) -> Option<&'static str>
    ensures { option_map (λ s. s.now) result ≡ unopened_words error }
{
    match error {
        OpenError::InUse => Some("journal in use"),
        OpenError::CannotOpen => Some("journal can't be opened"),
        OpenError::OtherProgram => Some("no journal"),
        OpenError::OtherAccount => Some("journal of another account"),
        OpenError::OtherVersion(_) => Some(
            "journal of a later version: open it with the program that made it, or a later one",
        ),
        OpenError::Failed(_) => Some("journal failed"),
        OpenError::NoMemory => None,
    }
}

/// The line that tells something of the journal of a name. Takes memory for it.
pub fn journal_line(alloc: Global, words: &str, name: &str) -> Result<String, AllocError>
    ensures { IfOk result (λ line. string_bytes line ≡ journal_line words.now name.now) }
{
    let mut line = String::from_str(alloc, "jmapd: ")?;
    line.push_str(words)?;
    line.push_str(": ")?;
    line.push_str(name)?;
    Ok(line)
}
