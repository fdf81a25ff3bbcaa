//! What a command and the configuration come to.
ghost use Rattle.std.specs.Prelude.{◌≡◌, ◌≤◌, ◌+◌, IfOk, Some, option_map};
ghost use Rattle.command_line.specs.Commands.{stdio};
ghost use Rattle.command_line.specs.Shown.{command_shown};
ghost use Rattle.jmapd_run.specs.Runs.{streamed};
ghost use Rattle.spec_site.specs.Configuration.{configured};
ghost use Rattle.jmapd_run.specs.Shown.{BatchHow, HasItsUser, LoadHow, NamedHow, ReadHow, SiteHow, StartHow};

use crate::status::Status;
use command_line::command::Command;
use command_line::workload::Workload;
use io_edge::opener::{LoadError, Opener};
use session_doc::{ConfigurationError, Site};
use spec_site::limits::MAX_CONFIGURATION_BYTES;
use std::alloc::Global;

/// What is to be run.
#[derive(Drop)]
pub(crate) enum Start {
    /// One request, for the user of a number.
    Batch(Site, u32),
    /// One connection.
    Stdio(Site),
    /// A workload.
    Workload(Workload),
}

/// What a command asks for, under the configuration that it names; it is `None` where the words were no command's.
///
/// In order: `Usage` where there is no command or it is `listen`, `OpenFault` where the configuration isn't loaded, `Config` where it is refused, and
/// `Usage` where it has no user of the name in `--user`. Takes memory for the site.
pub(crate) fn start_from<O: Opener>(
    alloc: Global,
    command: Option<Command<'_>>,
    opener: &mut O,
) -> Result<Start, Status>
    ensures how { StartHow (O.shown opener.old) (O.shown opener.new) (streamed (option_map command_shown command.entry)) result }
    ensures files { (O.shown opener.new).files ≡ (O.shown opener.old).files }
    ensures once { (O.shown opener.new).loads ≤ (O.shown opener.old).loads + 1 }
    ensures user { IfOk result HasItsUser }
{
    match command {
        Some(command) => start_of(alloc, command, opener),
        None => Err(Status::Usage),
    }
}

fn start_of<O: Opener>(alloc: Global, command: Command<'_>, opener: &mut O) -> Result<Start, Status>
    ensures how { StartHow (O.shown opener.old) (O.shown opener.new) (streamed (Some (command_shown command.entry))) result }
    ensures files { (O.shown opener.new).files ≡ (O.shown opener.old).files }
    ensures once { (O.shown opener.new).loads ≤ (O.shown opener.old).loads + 1 }
    ensures user { IfOk result HasItsUser }
{
    match command {
        Command::Batch { config, user } => start_batch(alloc, opener, config, user),
        Command::Stdio { config } => start_stdio(alloc, opener, config),
        Command::Workload(work) => Ok(Start::Workload(work)),
        Command::Listen(_) => Err(Status::Usage),
    }
}

// One connection, for the users of the site of this name.
#[tactic(auto, using(crate::proofs::Starting::stdio_refused))]
fn start_stdio<O: Opener>(alloc: Global, opener: &mut O, config: &str) -> Result<Start, Status>
    ensures how { StartHow (O.shown opener.old) (O.shown opener.new) (Some (stdio config.now)) result }
    ensures files { (O.shown opener.new).files ≡ (O.shown opener.old).files }
    ensures once { (O.shown opener.new).loads ≤ (O.shown opener.old).loads + 1 }
    ensures user { IfOk result HasItsUser }
{
    match load_site(alloc, opener, config) {
        Ok(site) => Ok(Start::Stdio(site)),
        Err(status) => Err(status),
    }
}

fn start_batch<O: Opener>(
    alloc: Global,
    opener: &mut O,
    config: Option<&str>,
    user: Option<&str>,
) -> Result<Start, Status>
    ensures how { BatchHow (O.shown opener.old) (O.shown opener.new) (option_map (λ name. name.now) config.entry) (option_map (λ name. name.now) user.entry) result }
    ensures files { (O.shown opener.new).files ≡ (O.shown opener.old).files }
    ensures once { (O.shown opener.new).loads ≤ (O.shown opener.old).loads + 1 }
    ensures user { IfOk result HasItsUser }
{
    let site = site_of(alloc, opener, config)?;
    match user {
        Some(name) => start_named(site, name),
        None => Ok(Start::Batch(site, 0)),
    }
}

// One request, for the user of a name.
fn start_named(site: Site, name: &str) -> Result<Start, Status>
    ensures how { NamedHow site name.now result }
    ensures user { IfOk result HasItsUser }
{
    match site.user_named(name) {
        Some(number) => Ok(Start::Batch(site, number)),
        None => Err(Status::Usage),
    }
}

// The site of a configuration, or the one without.
fn site_of<O: Opener>(alloc: Global, opener: &mut O, config: Option<&str>) -> Result<Site, Status>
    ensures files { (O.shown opener.new).files ≡ (O.shown opener.old).files }
    ensures once { (O.shown opener.new).loads ≤ (O.shown opener.old).loads + 1 }
    ensures how { SiteHow (O.shown opener.old) (O.shown opener.new) (option_map (λ name. name.now) config.entry) result }
{
    match config {
        Some(name) => load_site(alloc, opener, name),
        None => match Site::built_in(alloc) {
            Ok(site) => Ok(site),
            Err(_) => Err(Status::NoMemory),
        },
    }
}

/// The site of the configuration of a name: `OpenFault` where it isn't loaded, `Config` where it is refused. Takes memory for it.
pub fn load_site<O: Opener>(alloc: Global, opener: &mut O, name: &str) -> Result<Site, Status>
    ensures files { (O.shown opener.new).files ≡ (O.shown opener.old).files }
    ensures once { (O.shown opener.new).loads ≤ (O.shown opener.old).loads + 1 }
    ensures how { LoadHow (O.shown opener.old) (O.shown opener.new) name.now result }
{
    match opener.load(name, MAX_CONFIGURATION_BYTES as u64 + 1) {
        Ok(bytes) => read_site(alloc, &bytes),
        Err(LoadError::Missing | LoadError::Failed) => Err(Status::OpenFault),
        Err(LoadError::NoMemory) => Err(Status::NoMemory),
    }
}

fn read_site(alloc: Global, bytes: &[u8]) -> Result<Site, Status>
    ensures { ReadHow (configured bytes.now) result }
{
    match Site::read(alloc, bytes) {
        Ok(site) => Ok(site),
        Err(ConfigurationError::Bad { field, index }) => Err(Status::Config { field, index }),
        Err(ConfigurationError::NoMemory) => Err(Status::NoMemory),
    }
}
