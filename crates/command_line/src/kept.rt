//! What `kept` is to do.

use crate::options::{kept_command, matches_in};
use std::alloc::{AllocError, Global};

/// What `kept` is to do. The names are parts of the words.
#[derive(Clone, Copy, Debug)]
pub struct KeptCommand<'a> {
    /// The name of the configuration.
    pub config: &'a str,
    /// The name of the journal.
    pub journal: &'a str,
    /// The name of the user, where it is given.
    pub user: Option<&'a str>,
}

impl<'a> KeptCommand<'a> {
    ghost use Rattle.std.specs.Prelude.{◌≡◌, IfOk, map, option_map, string_bytes};
    ghost use Rattle.command_line.specs.KeptWords.{kept_named, kept_of, kept_options, kept_with};
    ghost use Rattle.command_line.specs.Shown.{kept_shown};

    /// What the words after the program's name ask for where the first is `kept`, or `None` where they aren't its words.
    ///
    /// Takes memory for what `clap` keeps until the words are read.
    pub fn read(alloc: Global, words: &'a [String]) -> Result<Option<KeptCommand<'a>>, AllocError>
        ensures { IfOk result (λ kept. option_map kept_shown kept ≡ kept_of (map string_bytes words.entry.now)) }
    {
        match words {
            [] => Ok(None),
            [word, rest @ ..] => KeptCommand::read_named(alloc, word.as_str(), rest),
        }
    }

    // What the words behind a command's name ask for.
    fn read_named(
        alloc: Global,
        name: &str,
        words: &'a [String],
    ) -> Result<Option<KeptCommand<'a>>, AllocError>
        ensures { IfOk result (λ kept. option_map kept_shown kept ≡ kept_named name.now (map string_bytes words.entry.now)) }
    {
        match name {
            "kept" => KeptCommand::read_options(alloc, words),
            _ => Ok(None),
        }
    }

    // What the words behind `kept` ask for.
    pub(crate) fn read_options(
        alloc: Global,
        words: &'a [String],
    ) -> Result<Option<KeptCommand<'a>>, AllocError>
        ensures { IfOk result (λ kept. option_map kept_shown kept ≡ kept_options (map string_bytes words.entry.now)) }
    {
        let command = kept_command(alloc)?;
        let Some(matches) = matches_in(command, words)? else {
            return Ok(None);
        };
        Ok(KeptCommand::with(
            matches.get_str("config"),
            matches.get_str("journal"),
            matches.get_str("user"),
        ))
    }

    // What the values of the options ask for.
    fn with(
        config: Option<&'a str>,
        journal: Option<&'a str>,
        user: Option<&'a str>,
    ) -> Option<KeptCommand<'a>>
        ensures { option_map kept_shown result ≡ kept_with (option_map (λ s. s.now) config.entry) (option_map (λ s. s.now) journal.entry) (option_map (λ s. s.now) user.entry) }
    {
        Some(KeptCommand {
            config: config?,
            journal: journal?,
            user,
        })
    }
}
