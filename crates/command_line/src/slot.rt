//! What `slot` is to do.
ghost use Rattle.std.specs.Prelude.{◌≡◌, IfOk, map, option_map, string_bytes};
ghost use Rattle.command_line.specs.Shown.{kept_shown};
ghost use Rattle.command_line.specs.SlotWords.{slot_words_by, slot_words};

use crate::kept::KeptCommand;
use std::alloc::{AllocError, Global};

/// What the words after the program's name ask for where the first is `slot`, or `None` where they aren't its words. Behind that word they are
/// those of `kept`.
///
/// Takes memory for what `clap` keeps until the words are read.
pub fn read_slot<'a>(
    alloc: Global,
    words: &'a [String],
) -> Result<Option<KeptCommand<'a>>, AllocError>
    ensures { IfOk result (λ slot. option_map kept_shown slot ≡ slot_words (map string_bytes words.entry.now)) }
{
    match words {
        [] => Ok(None),
        [word, rest @ ..] => read_named(alloc, word.as_str(), rest),
    }
}

// What the words behind a command's name ask for.
fn read_named<'a>(
    alloc: Global,
    name: &str,
    words: &'a [String],
) -> Result<Option<KeptCommand<'a>>, AllocError>
    ensures { IfOk result (λ slot. option_map kept_shown slot ≡ slot_words_by name.now (map string_bytes words.entry.now)) }
{
    match name {
        "slot" => KeptCommand::read_options(alloc, words),
        _ => Ok(None),
    }
}
