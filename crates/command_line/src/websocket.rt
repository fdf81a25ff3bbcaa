//! What `websocket` is to do.

ghost use Rattle.std.specs.Prelude.{◌≤◌};
ghost use Rattle.command_line.specs.declared.listen.TheConstants.{MAX_CONNECTIONS};

use crate::counts::{count_in, count_or};
use crate::listen::{DEFAULT_CONNECTIONS, MAX_CONNECTIONS, MAX_PORT};
use crate::options::{matches_in, websocket_command};
use std::alloc::{AllocError, Global};

/// What `websocket` is to do. The name is a part of the words.
#[derive(Clone, Copy, Debug)]
pub struct Websocket<'a> {
    /// The name of the configuration.
    pub config: &'a str,
    /// The port, from 1.
    pub port: u16,
    /// How many handshakes are looked at, from 1 to 1,000,000.
    pub connections: u64,
    ghost some_connections: { (1 ≤ connections) × (connections ≤ MAX_CONNECTIONS) },
}

impl<'a> Websocket<'a> {
    ghost use Rattle.std.specs.Prelude.{◌≡◌, IfOk, map, option_map, string_bytes};
    ghost use Rattle.command_line.specs.WebsocketWords.{websocket_named, websocket_of, websocket_options, websocket_with};
    ghost use Rattle.command_line.specs.Shown.{websocket_shown};

    /// What the words after the program's name ask for where the first is `websocket`, or `None` where they aren't its words.
    ///
    /// Takes memory for what `clap` keeps until the words are read.
    pub fn read(alloc: Global, words: &'a [String]) -> Result<Option<Websocket<'a>>, AllocError>
        ensures { IfOk result (λ websocket. option_map websocket_shown websocket ≡ websocket_of (map string_bytes words.entry.now)) }
    {
        match words {
            [] => Ok(None),
            [word, rest @ ..] => Websocket::read_named(alloc, word.as_str(), rest),
        }
    }

    // What the words behind a command's name ask for.
    fn read_named(
        alloc: Global,
        name: &str,
        words: &'a [String],
    ) -> Result<Option<Websocket<'a>>, AllocError>
        ensures { IfOk result (λ websocket. option_map websocket_shown websocket ≡ websocket_named name.now (map string_bytes words.entry.now)) }
    {
        match name {
            "websocket" => Websocket::read_options(alloc, words),
            _ => Ok(None),
        }
    }

    // What the words behind `websocket` ask for.
    fn read_options(alloc: Global, words: &'a [String]) -> Result<Option<Websocket<'a>>, AllocError>
        ensures { IfOk result (λ websocket. option_map websocket_shown websocket ≡ websocket_options (map string_bytes words.entry.now)) }
    {
        let command = websocket_command(alloc)?;
        let Some(matches) = matches_in(command, words)? else {
            return Ok(None);
        };
        Ok(Websocket::with(
            matches.get_str("config"),
            matches.get_str("port"),
            matches.get_str("connections"),
        ))
    }

    // What the values of the options ask for.
    fn with(
        config: Option<&'a str>,
        port: Option<&str>,
        connections: Option<&str>,
    ) -> Option<Websocket<'a>>
        ensures { option_map websocket_shown result ≡ websocket_with (option_map (λ s. s.now) config.entry) (option_map (λ s. s.now) port.entry) (option_map (λ s. s.now) connections.entry) }
    {
        let config = config?;
        let port = count_in(port?, MAX_PORT)?;
        let connections = count_or(connections, MAX_CONNECTIONS, DEFAULT_CONNECTIONS)?;
        Some(Websocket {
            config,
            port: port as u16,
            connections,
        })
    }
}
