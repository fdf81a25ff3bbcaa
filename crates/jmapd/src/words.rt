//! The program's words.
ghost use Rattle.std.specs.Prelude.{◌≡◌, ◌≢◌, IfOk, drop};
ghost use Rattle.std.specs.Vec.Iter.{into_iter_items};

use command_line::command::{Command, read_command};
use command_line::listen::Listen;
use jmapd_run::status::Status;
use std::alloc::{AllocError, Global};
use std::env;
use std::io::ErrorKind;

/// The words after the program's name, or how the run ends without them. Takes memory for them.
pub fn program_words(rt: &HostRuntime) -> Result<Vec<String>, Status> {
    match env::args(rt) {
        Ok(all) => match behind_name(rt.alloc(), all) {
            Ok(words) => Ok(words),
            Err(_) => Err(Status::NoMemory),
        },
        Err(error) => Err(unread(error.kind())),
    }
}

/// What `listen` without journals is to do, where the words are its. Where there is no memory to read them, it says that they aren't.
pub fn listen_without_journals<'a>(alloc: Global, words: &'a [String]) -> Option<Listen<'a>> {
    match read_command(alloc, words) {
        Ok(Some(Command::Listen(asked))) => Some(asked),
        _ => None,
    }
}

/// All arguments but the program's name, which is the first. Takes memory for the list.
fn behind_name(alloc: Global, all: env::Args) -> Result<Vec<String>, AllocError>
    ensures { IfOk result (λ words. words.items ≡ drop 1 (into_iter_items all)) }
{
    let mut words = Vec::new(alloc);
    for word in all.skip(1) {
        words.push(word)?;
    }
    Ok(words)
}

/// How a run ends whose words weren't read: a word that isn't UTF-8 is no command's.
fn unread(error: ErrorKind) -> Status
    ensures memory { error ≡ ErrorKind.OutOfMemory → result ≡ Status.NoMemory }
    ensures other { error ≢ ErrorKind.OutOfMemory → result ≡ Status.Usage }
{
    match error {
        ErrorKind::OutOfMemory => Status::NoMemory,
        _ => Status::Usage,
    }
}
