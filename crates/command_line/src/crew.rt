//! Workers of sockets beside those of `listen`.

ghost use Rattle.std.specs.Prelude.{◌≤◌};
ghost use Rattle.command_line.specs.declared.listen.TheConstants.{MAX_WORKERS};

use crate::counts::{count_in, count_or};
use crate::listen::{DEFAULT_SOCKET_WORKERS, MAX_ALL_WORKERS, MAX_PORT, MAX_WORKERS};

/// Workers that serve the sockets of a port.
#[derive(Clone, Copy, Debug)]
pub struct SocketCrew {
    /// The port, from 1.
    pub port: u16,
    /// How many workers there are, from 1 to 255. Each serves one socket after the other.
    pub workers: u32,
    ghost some_workers: { (1 ≤ workers) × (workers ≤ MAX_WORKERS) },
}

impl SocketCrew {
    ghost use Rattle.std.specs.Prelude.{◌≡◌, ◌+◌, IfSome, option_map};
    ghost use Rattle.std.specs.Option.{option_map_or};
    ghost use Rattle.command_line.specs.Commands.{crew_beside, crew_with, sockets_with};
    ghost use Rattle.command_line.specs.Shown.{crew_shown};
    ghost use Rattle.command_line.specs.declared.listen.TheConstants.{MAX_ALL_WORKERS};

    // Who serves sockets beside so many workers of a port, nobody where no value asks for any. `None` is for values that ask for what can't be.
    pub(crate) fn asked_beside(
        port: u64,
        workers: u64,
        sockets: Option<&str>,
        many: Option<&str>,
    ) -> Option<Option<SocketCrew>>
        requires { workers ≤ MAX_WORKERS }
        ensures is { option_map (option_map crew_shown) result ≡ sockets_with port workers (option_map (λ s. s.now) sockets.entry) (option_map (λ s. s.now) many.entry) }
        ensures few { IfSome result (λ crew. workers + option_map_or (λ c. c.workers) crew 0 ≤ MAX_ALL_WORKERS) }
    {
        match (sockets, many) {
            (None, None) => Some(None),
            (None, Some(_)) => None,
            (Some(text), many) => {
                let crew = SocketCrew::with(text, many)?;
                Some(Some(crew.beside(port, workers)?))
            }
        }
    }

    // What the values of a port and of a number ask for.
    fn with(port: &str, many: Option<&str>) -> Option<SocketCrew>
        ensures { option_map crew_shown result ≡ crew_with port.now (option_map (λ s. s.now) many.entry) }
    {
        let port = count_in(port, MAX_PORT)?;
        let workers = count_or(many, MAX_WORKERS, DEFAULT_SOCKET_WORKERS)?;
        Some(SocketCrew {
            port: port as u16,
            workers: workers as u32,
        })
    }

    // These workers, where they have a port of their own and may be beside so many.
    fn beside(self, port: u64, workers: u64) -> Option<SocketCrew>
        requires { workers ≤ MAX_WORKERS }
        ensures is { option_map crew_shown result ≡ crew_beside port workers (crew_shown self) }
        ensures few { IfSome result (λ c. workers + c.workers ≤ MAX_ALL_WORKERS) }
    {
        if u64::from(self.port) != port && workers + u64::from(self.workers) <= MAX_ALL_WORKERS {
            Some(self)
        } else {
            None
        }
    }
}
