//! Commands: what the words of the command line ask for.

ghost use Rattle.std.specs.Prelude.{◌≡◌, IfOk, map, option_map, string_bytes};
ghost use Rattle.command_line.specs.Commands.{batch_of, command_named, command_of, listen, listen_of, stdio_of, workload_of};
ghost use Rattle.command_line.specs.Shown.{command_shown};

use crate::listen::Listen;
use crate::options::{batch_command, matches_in, stdio_command};
use crate::workload::Workload;
use std::alloc::{AllocError, Global};

/// What the words of the command line ask for. The names are parts of the words.
#[derive(Clone, Copy, Debug)]
pub enum Command<'a> {
    /// One request, of a user and under a configuration where they are named.
    Batch {
        config: Option<&'a str>,
        user: Option<&'a str>,
    },
    /// One connection, under a configuration.
    Stdio {
        config: &'a str,
    },
    /// A workload.
    Workload(Workload),
    /// Workers that serve connections of a port, under a configuration.
    Listen(Listen<'a>),
}

/// What the words after the program's name ask for, or `None` where they are no command's words.
///
/// Takes memory for what `clap` keeps until the words are read.
pub fn read_command<'a>(
    alloc: Global,
    words: &'a [String],
) -> Result<Option<Command<'a>>, AllocError>
    ensures { IfOk result (λ command. option_map command_shown command ≡ command_of (map string_bytes words.entry.now)) }
{
    match words {
        [] => Ok(None),
        [word, rest @ ..] => read_named(alloc, word.as_str(), rest),
    }
}

// What the words behind a command's name ask for.
#[tactic(auto, unfolding(crate::specs::Commands::command_named))]
fn read_named<'a>(
    alloc: Global,
    name: &str,
    words: &'a [String],
) -> Result<Option<Command<'a>>, AllocError>
    ensures { IfOk result (λ command. option_map command_shown command ≡ command_named name.now (map string_bytes words.entry.now)) }
{
    match name {
        "batch" => read_batch(alloc, words),
        "stdio" => read_stdio(alloc, words),
        "workload" => read_workload(alloc, words),
        "listen" => read_listen(alloc, words),
        _ => Ok(None),
    }
}

fn read_batch<'a>(alloc: Global, words: &'a [String]) -> Result<Option<Command<'a>>, AllocError>
    ensures { IfOk result (λ command. option_map command_shown command ≡ batch_of (map string_bytes words.entry.now)) }
{
    let command = batch_command(alloc)?;
    let Some(matches) = matches_in(command, words)? else {
        return Ok(None);
    };
    Ok(Some(Command::Batch {
        config: matches.get_str("config"),
        user: matches.get_str("user"),
    }))
}

fn read_stdio<'a>(alloc: Global, words: &'a [String]) -> Result<Option<Command<'a>>, AllocError>
    ensures { IfOk result (λ command. option_map command_shown command ≡ stdio_of (map string_bytes words.entry.now)) }
{
    let command = stdio_command(alloc)?;
    let Some(matches) = matches_in(command, words)? else {
        return Ok(None);
    };
    match matches.get_str("config") {
        Some(config) => Ok(Some(Command::Stdio { config })),
        None => Ok(None),
    }
}

fn read_workload<'a>(alloc: Global, words: &'a [String]) -> Result<Option<Command<'a>>, AllocError>
    ensures { IfOk result (λ command. option_map command_shown command ≡ workload_of (map string_bytes words.entry.now)) }
{
    match Workload::read(alloc, words)? {
        Some(workload) => Ok(Some(Command::Workload(workload))),
        None => Ok(None),
    }
}

fn read_listen<'a>(alloc: Global, words: &'a [String]) -> Result<Option<Command<'a>>, AllocError>
    ensures { IfOk result (λ command. option_map command_shown command ≡ option_map listen (listen_of (map string_bytes words.entry.now))) }
{
    match Listen::read(alloc, words)? {
        Some(listen) => Ok(Some(Command::Listen(listen))),
        None => Ok(None),
    }
}
