//! What `listen` is to do.

ghost use Rattle.std.specs.Prelude.{◌+◌, ◌≤◌};
ghost use Rattle.std.specs.Option.{option_map_or};
ghost use Rattle.command_line.specs.declared.listen.TheConstants.{MAX_ALL_WORKERS, MAX_CONNECTIONS, MAX_WORKERS};

use crate::counts::{count_in, count_or};
use crate::crew::SocketCrew;
use crate::flags::is_given;
use crate::options::{listen_command, matches_in};
use std::alloc::{AllocError, Global};

/// The greatest port (RFC 9293 section 3.1).
pub const MAX_PORT: u64 = 65535;
/// The most workers of connections, and of sockets.
pub const MAX_WORKERS: u64 = 255;
/// The most workers of both kinds: as many as an account's lock has passes.
pub const MAX_ALL_WORKERS: u64 = 256;
/// How many workers of connections there are where the words don't say it.
pub const DEFAULT_WORKERS: u64 = 16;
/// How many workers of sockets there are where the words give a port for these and don't say it.
pub const DEFAULT_SOCKET_WORKERS: u64 = 64;
/// The most connections of a worker.
pub const MAX_CONNECTIONS: u64 = 1_000_000;
/// How many connections each worker serves where the words don't say it.
pub const DEFAULT_CONNECTIONS: u64 = 1_000_000;

/// What `listen` is to do. The name is a part of the words.
#[derive(Clone, Copy, Debug)]
pub struct Listen<'a> {
    /// The name of the configuration.
    pub config: &'a str,
    /// The port, from 1.
    pub port: u16,
    /// How many workers serve connections, from 1 to 255.
    pub workers: u32,
    /// How many connections, or handshakes of sockets, each worker takes, from 1 to 1,000,000.
    pub connections: u64,
    /// Whether a line tells of each request.
    pub log: bool,
    /// Who serves sockets, on a port of their own. With them there are at most 256 workers.
    pub sockets: Option<SocketCrew>,
    ghost some_workers: { (1 ≤ workers) × (workers ≤ MAX_WORKERS) },
    ghost some_connections: { (1 ≤ connections) × (connections ≤ MAX_CONNECTIONS) },
    ghost few_workers: { workers + option_map_or (λ c. c.workers) sockets 0 ≤ MAX_ALL_WORKERS },
}

impl<'a> Listen<'a> {
    ghost use Rattle.std.specs.Prelude.{◌≡◌, IfOk, map, option_map, string_bytes};
    ghost use Rattle.command_line.specs.Commands.{all_workers, listen_of, listen_with};
    ghost use Rattle.command_line.specs.Shown.{listen_shown};

    /// What the words behind `listen` ask for, or `None` where they aren't its words.
    ///
    /// Takes memory for what `clap` keeps until the words are read.
    pub(crate) fn read(alloc: Global, words: &'a [String]) -> Result<Option<Listen<'a>>, AllocError>
        ensures { IfOk result (λ listen. option_map listen_shown listen ≡ listen_of (map string_bytes words.entry.now)) }
    {
        let command = listen_command(alloc)?;
        let Some(matches) = matches_in(command, words)? else {
            return Ok(None);
        };
        Ok(Listen::with(
            matches.get_str("config"),
            matches.get_str("port"),
            matches.get_str("workers"),
            matches.get_str("connections"),
            matches.get_str("log"),
            matches.get_str("sockets-port"),
            matches.get_str("socket-workers"),
        ))
    }

    // What the values of the options ask for.
    pub(crate) fn with(
        config: Option<&'a str>,
        port: Option<&str>,
        workers: Option<&str>,
        connections: Option<&str>,
        log: Option<&str>,
        sockets: Option<&str>,
        many: Option<&str>,
    ) -> Option<Listen<'a>>
        ensures { option_map listen_shown result ≡ listen_with (option_map (λ s. s.now) config.entry) (option_map (λ s. s.now) port.entry) (option_map (λ s. s.now) workers.entry) (option_map (λ s. s.now) connections.entry) (option_map (λ s. s.now) log.entry) (option_map (λ s. s.now) sockets.entry) (option_map (λ s. s.now) many.entry) }
    {
        let config = config?;
        let port = count_in(port?, MAX_PORT)?;
        let workers = count_or(workers, MAX_WORKERS, DEFAULT_WORKERS)?;
        let connections = count_or(connections, MAX_CONNECTIONS, DEFAULT_CONNECTIONS)?;
        let sockets = SocketCrew::asked_beside(port, workers, sockets, many)?;
        Some(Listen {
            config,
            port: port as u16,
            workers: workers as u32,
            connections,
            log: is_given(log),
            sockets,
        })
    }

    /// How many workers there are of both kinds, from 1 to 256. Takes no memory.
    pub fn all_workers(&self) -> u32
        ensures all { result ≡ all_workers (listen_shown self.now) }
        ensures within { (1 ≤ result) × (result ≤ MAX_ALL_WORKERS) }
    {
        match self.sockets {
            Some(crew) => self.workers + crew.workers,
            None => self.workers,
        }
    }
}
