//! What `listen` is to do where it keeps journals.

use crate::listen::Listen;
use crate::options::{listen_kept_command, matches_in};
use std::alloc::{AllocError, Global};

/// What `listen` is to do, with the folder of the journals that it keeps. The names are parts of the words.
#[derive(Clone, Copy, Debug)]
pub struct ListenKept<'a> {
    /// What its workers are to do.
    pub listen: Listen<'a>,
    /// The name of the folder.
    pub journals: &'a str,
}

impl<'a> ListenKept<'a> {
    ghost use Rattle.std.specs.Prelude.{◌≡◌, IfOk, map, option_map, string_bytes};
    ghost use Rattle.command_line.specs.ListenKeptWords.{listen_kept_named, listen_kept_of, listen_kept_options, listen_kept_with};
    ghost use Rattle.command_line.specs.Shown.{listen_kept_shown, listen_shown};

    /// What the words after the program's name ask for where they are those of `listen` with journals, or `None` where they aren't.
    ///
    /// Takes memory for what `clap` keeps until the words are read.
    pub fn read(alloc: Global, words: &'a [String]) -> Result<Option<ListenKept<'a>>, AllocError>
        ensures { IfOk result (λ listen. option_map listen_kept_shown listen ≡ listen_kept_of (map string_bytes words.entry.now)) }
    {
        match words {
            [] => Ok(None),
            [word, rest @ ..] => ListenKept::read_named(alloc, word.as_str(), rest),
        }
    }

    // What the words behind a command's name ask for.
    #[tactic(auto, unfolding(crate::specs::ListenKeptWords::listen_kept_named))]
    fn read_named(
        alloc: Global,
        name: &str,
        words: &'a [String],
    ) -> Result<Option<ListenKept<'a>>, AllocError>
        ensures { IfOk result (λ listen. option_map listen_kept_shown listen ≡ listen_kept_named name.now (map string_bytes words.entry.now)) }
    {
        match name {
            "listen" => ListenKept::read_options(alloc, words),
            _ => Ok(None),
        }
    }

    // What the words behind `listen` ask for.
    fn read_options(
        alloc: Global,
        words: &'a [String],
    ) -> Result<Option<ListenKept<'a>>, AllocError>
        ensures { IfOk result (λ listen. option_map listen_kept_shown listen ≡ listen_kept_options (map string_bytes words.entry.now)) }
    {
        let command = listen_kept_command(alloc)?;
        let Some(matches) = matches_in(command, words)? else {
            return Ok(None);
        };
        let listen = Listen::with(
            matches.get_str("config"),
            matches.get_str("port"),
            matches.get_str("workers"),
            matches.get_str("connections"),
            matches.get_str("log"),
            matches.get_str("sockets-port"),
            matches.get_str("socket-workers"),
        );
        Ok(ListenKept::with(listen, matches.get_str("journals")))
    }

    // What a `listen` and the value of `journals` ask for.
    fn with(listen: Option<Listen<'a>>, journals: Option<&'a str>) -> Option<ListenKept<'a>>
        ensures { option_map listen_kept_shown result ≡ listen_kept_with (option_map listen_shown listen.entry) (option_map (λ s. s.now) journals.entry) }
    {
        Some(ListenKept {
            listen: listen?,
            journals: journals?,
        })
    }
}
