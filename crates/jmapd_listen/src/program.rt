//! The program's commands, over any opener, streams, hosts, spawner and clock.
ghost use Rattle.std.specs.Prelude.{◌≡◌, ◌≤◌, ◌+◌, map, option_map, string_bytes};
ghost use Rattle.jmapd_listen.specs.Asked.{listen_by, listen_in};
ghost use Rattle.command_line.specs.Shown.{command_shown, listen_shown};
ghost use Rattle.jmapd_listen.specs.Program.{RunsProgram};

use crate::listen::listen;
use command_line::command::{Command, read_command};
use command_line::listen::Listen;
use io_edge::clock::Clock;
use io_edge::opener::Opener;
use io_edge::sink::Sink;
use io_edge::source::Source;
use jmapd_run::run::run;
use jmapd_run::status::Status;
use listen_edge::host::Host;
use listen_edge::spawner::Spawner;
use std::alloc::Global;
use std::sync::Wait;
use ws_edge::socket_host::SocketHost;

/// Runs the command that `words` name, which are the program's words without its own name: `listen` by workers over hosts, the others over the streams.
///
/// The words are looked at first (`Usage` where they are no command's), then the configuration that they name, which is loaded once at most. Takes memory for what the command keeps.
pub fn run_program<
    O: Opener,
    S: Source,
    K: Sink,
    C: Clock + Copy + Send + Drop + 'static,
    H: Host,
    G: SocketHost,
    P: Spawner,
    W: Wait + Copy + Send + Drop + 'static,
>(
    alloc: Global,
    runtime: W,
    words: &[String],
    opener: &mut O,
    input: &mut S,
    output: &mut K,
    clock: &mut C,
    host: &mut H,
    socket_host: &mut G,
    spawner: &mut P,
) -> Status
    ensures runs { RunsProgram (record { input = S.shown input.old; output = K.shown output.old; clock = C.moments clock.old })
        (record { input = S.shown input.new; output = K.shown output.new; clock = C.moments clock.new })
        (record { connections = H.shown host.old; sockets = G.shown socket_host.old }) (record { connections = H.shown host.new; sockets = G.shown socket_host.new })
        (record { faults = P.faults spawner.old; served = P.served spawner.old }) (record { faults = P.faults spawner.new; served = P.served spawner.new })
        (O.shown opener.old) (O.shown opener.new) (map string_bytes words.now) result }
    ensures files { (O.shown opener.new).files ≡ (O.shown opener.old).files }
    ensures once { (O.shown opener.new).loads ≤ (O.shown opener.old).loads + 1 }
{
    let Ok(command) = read_command(alloc, words) else {
        return Status::NoMemory;
    };
    match listen_in(command) {
        Some(asked) => listen(
            alloc,
            runtime,
            &asked,
            opener,
            host,
            socket_host,
            spawner,
            *clock,
        ),
        None => run(alloc, command, opener, input, output, clock),
    }
}

// What workers are asked to do, where that is the command.
fn listen_in<'a>(command: Option<Command<'a>>) -> Option<Listen<'a>>
    ensures { option_map listen_shown result ≡ listen_in (option_map command_shown command.entry) }
{
    match command {
        Some(command) => listen_by(command),
        None => None,
    }
}

fn listen_by<'a>(command: Command<'a>) -> Option<Listen<'a>>
    ensures { option_map listen_shown result ≡ listen_by (command_shown command.entry) }
{
    match command {
        Command::Listen(asked) => Some(asked),
        Command::Batch { .. } | Command::Stdio { .. } | Command::Workload(_) => None,
    }
}
