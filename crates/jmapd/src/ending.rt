//! What is told of how the program ended.
ghost use Rattle.std.specs.Prelude.{◌≡◌, ◌++◌, IfOk, codes, option_map, string_bytes};
ghost use Rattle.std.specs.Fmt.{decimal};
ghost use Rattle.std.specs.Process.{exit_status as ends_with};
ghost use Rattle.jmapd.specs.Messages.{error_line, kept_error_line, object_line, place_line};
ghost use Rattle.jmapd_run.specs.Statuses.{exit_status};
ghost use Rattle.kept_run.specs.Statuses.{kept_exit_status};
ghost use Rattle.spec_site.specs.Configuration.{field_name};

use jmapd_run::kept_status::KeptStatus;
use jmapd_run::status::Status;
use spec_site::field::Field;
use std::alloc::{AllocError, Global};
use std::process::ExitCode;
use time_text::object_id_text;

/// Tells on standard error how the program ended, where memory suffices for the line, and gives what the process ends with.
pub fn finish(rt: &HostRuntime, status: Status) -> ExitCode
    ensures { ends_with result ≡ exit_status status }
{
    if let Ok(Some(line)) = message(rt.alloc(), status) {
        let _ = rt.eprintln(line.as_str());
    }
    exit_code(status)
}

/// Tells on standard error how a kept run ended, where memory suffices for the line, and gives what the process ends with.
pub fn finish_kept(rt: &HostRuntime, status: KeptStatus) -> ExitCode
    ensures { ends_with result ≡ kept_exit_status status }
{
    if let Ok(Some(line)) = kept_message(rt.alloc(), &status) {
        let _ = rt.eprintln(line.as_str());
    }
    match status {
        KeptStatus::Plain(status) => exit_code(status),
        KeptStatus::KeepFault => ExitCode::from(9),
        KeptStatus::Damaged { .. } => ExitCode::from(10),
        KeptStatus::ForeignJournal { .. } | KeptStatus::BadJournal { .. } => ExitCode::from(11),
    }
}

/// What the process ends with.
fn exit_code(status: Status) -> ExitCode
    ensures { ends_with result ≡ exit_status status }
{
    ExitCode::from(match status {
        Status::Done => 0,
        Status::Refused => 1,
        Status::Usage => 2,
        Status::Config { .. } => 3,
        Status::ReadFault => 4,
        Status::WriteFault => 5,
        Status::OpenFault => 6,
        Status::NoMemory => 7,
        Status::Cut => 8,
    })
}

/// The line on standard error that tells of a status: there is one of every status but `Done`. Takes memory for it.
fn message(alloc: Global, status: Status) -> Result<Option<String>, AllocError>
    ensures { IfOk result (λ line. option_map string_bytes line ≡ error_line status) }
{
    let line = match status {
        Status::Done => return Ok(None),
        Status::Config { field, index } => return Ok(Some(configuration_line(
            alloc, field, index,
        )?)),
        Status::Refused => "jmapd: request refused",
        Status::Usage => "usage: jmapd batch|stdio|listen|workload [options]",
        Status::ReadFault => "jmapd: read fault",
        Status::WriteFault => "jmapd: write fault",
        Status::OpenFault => "jmapd: open fault",
        Status::NoMemory => "jmapd: out of memory",
        Status::Cut => "jmapd: connection cut",
    };
    Ok(Some(String::from_str(alloc, line)?))
}

/// The line that tells of a refused configuration. Takes memory for it.
fn configuration_line(alloc: Global, field: Field, index: u32) -> Result<String, AllocError>
    ensures { IfOk result (λ line. string_bytes line ≡ codes "jmapd: configuration: " ++ field_name field ++ codes " " ++ decimal index) }
{
    let mut line = String::from_str(alloc, "jmapd: configuration: ")?;
    line.push_str(field.name())?;
    line.push(' ')?;
    line.push_str(index.to_string(alloc)?.as_str())?;
    Ok(line)
}

/// The line on standard error that tells of the status of a kept run. Takes memory for it.
fn kept_message(alloc: Global, status: &KeptStatus) -> Result<Option<String>, AllocError>
    ensures { IfOk result (λ line. option_map string_bytes line ≡ kept_error_line status.now) }
{
    match status {
        KeptStatus::Plain(status) => message(alloc, *status),
        KeptStatus::KeepFault => Ok(Some(String::from_str(alloc, "jmapd: keep fault")?)),
        KeptStatus::Damaged { account, place, .. } => {
            let line = place_line(alloc, "jmapd: damaged entry: ", account.as_str(), *place)?;
            Ok(Some(line))
        }
        KeptStatus::ForeignJournal { account, place } => {
            let line = place_line(alloc, "jmapd: bad journal: ", account.as_str(), *place)?;
            Ok(Some(line))
        }
        KeptStatus::BadJournal { account, kind, id } => {
            let id = object_id_text(alloc, *kind, *id)?;
            Ok(Some(object_line(alloc, account.as_str(), id.as_str())?))
        }
    }
}

/// The line that tells of an object for which an account doesn't go on from its journal. Takes memory for it.
fn object_line(alloc: Global, account: &str, id: &str) -> Result<String, AllocError>
    ensures { IfOk result (λ line. string_bytes line ≡ object_line account.now id.now) }
{
    let mut line = String::from_str(alloc, "jmapd: bad journal: ")?;
    line.push_str(account)?;
    line.push_str(" object ")?;
    line.push_str(id)?;
    Ok(line)
}

/// The line that tells of a place in the journal of an account. Takes memory for it.
fn place_line(alloc: Global, front: &str, account: &str, place: u64) -> Result<String, AllocError>
    ensures { IfOk result (λ line. string_bytes line ≡ place_line front.now account.now place) }
{
    let mut line = String::from_str(alloc, front)?;
    line.push_str(account)?;
    line.push(' ')?;
    line.push_str(place.to_string(alloc)?.as_str())?;
    Ok(line)
}
