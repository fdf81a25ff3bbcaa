//! The commands as `clap` knows them.

ghost use Rattle.std.specs.Prelude.{◌≡◌, IfNone, IfOk, IfSome, false, map, string_bytes, true};
ghost use Rattle.clap.specs.Words.{HasMatchesOf, app_of, is_simple_and_free, rule_of, with_rule};
ghost use Rattle.command_line.specs.KeptWords.{kept_app};
ghost use Rattle.command_line.specs.ListenKeptWords.{listen_kept_app};
ghost use Rattle.command_line.specs.WebsocketWords.{websocket_app};
ghost use Rattle.command_line.specs.Commands.{without_flags, batch_app, flag_named, listen_app, option_named, stdio_app, workload_app, accepts};

use clap::error::ErrorKind;
use clap::{Arg, ArgAction, ArgMatches, Command};
use std::alloc::{AllocError, Global};

/// `batch [--config NAME] [--user NAME]`. Takes memory for its options.
#[tactic(auto, unfolding(crate::specs::Commands::batch_app))]
pub fn batch_command<'a>(alloc: Global) -> Result<Command<'a>, AllocError>
    ensures { IfOk result (λ command. app_of command ≡ batch_app) }
{
    let command = with_option(alloc, bare_command(alloc, "batch"), "config", false)?;
    with_option(alloc, command, "user", false)
}

/// `stdio --config NAME`. Takes memory for its option.
#[tactic(auto, unfolding(crate::specs::Commands::stdio_app))]
pub fn stdio_command<'a>(alloc: Global) -> Result<Command<'a>, AllocError>
    ensures { IfOk result (λ command. app_of command ≡ stdio_app) }
{
    with_option(alloc, bare_command(alloc, "stdio"), "config", true)
}

/// `workload --number N --size M`. Takes memory for its options.
#[tactic(auto, unfolding(crate::specs::Commands::workload_app))]
pub fn workload_command<'a>(alloc: Global) -> Result<Command<'a>, AllocError>
    ensures { IfOk result (λ command. app_of command ≡ workload_app) }
{
    let command = with_option(alloc, bare_command(alloc, "workload"), "number", true)?;
    with_option(alloc, command, "size", true)
}

/// `listen --config NAME --port P [--workers W] [--connections N] [--log] [--sockets-port Q] [--socket-workers V]`. Takes memory for its options.
#[tactic(auto, unfolding(crate::specs::Commands::listen_app))]
pub fn listen_command<'a>(alloc: Global) -> Result<Command<'a>, AllocError>
    ensures { IfOk result (λ command. app_of command ≡ listen_app) }
{
    let command = with_option(alloc, bare_command(alloc, "listen"), "config", true)?;
    let command = with_option(alloc, command, "port", true)?;
    let command = with_option(alloc, command, "workers", false)?;
    let command = with_option(alloc, command, "connections", false)?;
    let command = with_flag(alloc, command, "log")?;
    let command = with_option(alloc, command, "sockets-port", false)?;
    with_option(alloc, command, "socket-workers", false)
}

/// The options of `listen`, and `--journals FOLDER`. Takes memory for them.
pub fn listen_kept_command<'a>(alloc: Global) -> Result<Command<'a>, AllocError>
    ensures { IfOk result (λ command. app_of command ≡ listen_kept_app) }
{
    with_option(alloc, listen_command(alloc)?, "journals", true)
}

/// `kept --config NAME --journal NAME [--user NAME]`. Takes memory for its options.
#[tactic(auto, unfolding(crate::specs::KeptWords::kept_app))]
pub fn kept_command<'a>(alloc: Global) -> Result<Command<'a>, AllocError>
    ensures { IfOk result (λ command. app_of command ≡ kept_app) }
{
    let command = with_option(alloc, bare_command(alloc, "kept"), "config", true)?;
    let command = with_option(alloc, command, "journal", true)?;
    with_option(alloc, command, "user", false)
}

/// `websocket --config NAME --port P [--connections N]`. Takes memory for its options.
#[tactic(auto, unfolding(crate::specs::WebsocketWords::websocket_app))]
pub fn websocket_command<'a>(alloc: Global) -> Result<Command<'a>, AllocError>
    ensures { IfOk result (λ command. app_of command ≡ websocket_app) }
{
    let command = with_option(alloc, bare_command(alloc, "websocket"), "config", true)?;
    let command = with_option(alloc, command, "port", true)?;
    with_option(alloc, command, "connections", false)
}

/// What `clap` finds in the words of a command, or `None` where it finds a fault with them.
///
/// Takes memory for that, and for the tables of a parse.
pub fn matches_in<'a>(
    command: Command<'a>,
    words: &'a [String],
) -> Result<Option<ArgMatches<'a>>, AllocError>
    requires { is_simple_and_free (app_of command) ≡ true }
    ensures taken { IfOk result (λ found. IfSome found (λ matches.
        (accepts (app_of command.entry) (map string_bytes words.entry.now) ≡ true) × HasMatchesOf (app_of command.entry) (map string_bytes words.entry.now) matches)) }
    ensures refused { IfOk result (λ found. IfNone found (accepts (app_of command.entry) (map string_bytes words.entry.now) ≡ false)) }
{
    match command.try_get_matches_from(words) {
        Ok(matches) => Ok(Some(matches)),
        Err(error) => match error.kind() {
            ErrorKind::OutOfMemory => Err(AllocError),
            _ => Ok(None),
        },
    }
}

fn bare_command<'a>(alloc: Global, name: &'a str) -> Command<'a>
    ensures { app_of result ≡ without_flags name.entry.now }
{
    Command::new(alloc, name)
        .no_binary_name(true)
        .disable_help_flag(true)
        .disable_version_flag(true)
}

// A command with one more option. Where there is no memory for it nothing is left to be dropped.
fn with_option<'a>(
    alloc: Global,
    command: Command<'a>,
    name: &'a str,
    required: bool,
) -> Result<Command<'a>, AllocError>
    ensures { IfOk result (λ c. app_of c ≡ with_rule (app_of command.entry) (option_named name.entry.now required)) }
{
    Ok(command.arg(option_named(alloc, name, required))?)
}

// A command with one more flag.
fn with_flag<'a>(
    alloc: Global,
    command: Command<'a>,
    name: &'a str,
) -> Result<Command<'a>, AllocError>
    ensures { IfOk result (λ c. app_of c ≡ with_rule (app_of command.entry) (flag_named name.entry.now)) }
{
    Ok(command.arg(flag_named(alloc, name))?)
}

fn flag_named<'a>(alloc: Global, name: &'a str) -> Arg<'a>
    ensures rule { rule_of result ≡ flag_named name.entry.now }
    ensures local { result.global ≡ false }
{
    Arg::new(alloc, name).long(name).action(ArgAction::SetTrue)
}

fn option_named<'a>(alloc: Global, name: &'a str, required: bool) -> Arg<'a>
    ensures rule { rule_of result ≡ option_named name.entry.now required }
    ensures local { result.global ≡ false }
{
    Arg::new(alloc, name)
        .long(name)
        .action(ArgAction::Set)
        .required(required)
}
