//! The system's files.

ghost use Rattle.std.specs.Prelude.{◌≡◌, ◌≤◌, ◌↔◌, IfOk, IfSome, None, take};
ghost use Rattle.io_edge.specs.Outside.{Rose};

use crate::opener::{LoadError, Opener};
use std::alloc::Global;
use std::fs;
use std::io::{self, ErrorKind, Read};
use std::rt::Files;

/// The system's files, over the runtime, by their paths. It tells none of them.
#[derive(Drop)]
pub struct SystemFiles<R: Copy> {
    alloc: Global,
    runtime: R,
    loads: u64,
    faults: u64,
}

impl<R: Files + Copy> SystemFiles<R> {
    /// Makes an opener over the runtime. Takes no memory.
    pub fn new(alloc: Global, runtime: R) -> SystemFiles<R>
        ensures { (⟦<SystemFiles<R> as Opener>⟧.shown result).faults ≡ 0 }
    {
        SystemFiles {
            alloc,
            runtime,
            loads: 0,
            faults: 0,
        }
    }

    // Why a load failed, and counts it where it is a fault.
    fn refuse(&mut self, kind: ErrorKind) -> LoadError
        ensures missing { (result ≡ LoadError.Missing) ↔ (kind ≡ ErrorKind.NotFound) }
        ensures no_memory { (result ≡ LoadError.NoMemory) ↔ (kind ≡ ErrorKind.OutOfMemory) }
        ensures later { self.old.faults ≤ self.new.faults }
        ensures failed { result ≡ LoadError.Failed → Rose self.old.faults self.new.faults }
        ensures missing_is_no_fault { result ≡ LoadError.Missing → self.new.faults ≡ self.old.faults }
        ensures loads { self.new.loads ≡ self.old.loads }
    {
        match kind {
            ErrorKind::NotFound => LoadError::Missing,
            ErrorKind::OutOfMemory => LoadError::NoMemory,
            _ => {
                self.faults = self.faults.saturating_add(1);
                LoadError::Failed
            }
        }
    }
}

impl<R: Files + Copy> Opener for SystemFiles<R> {
    ghost shown = { λ opener. record { files = None; loads = opener.loads; faults = opener.faults } };

    fn load(&mut self, name: &str, most: u64) -> Result<Vec<u8>, LoadError> {
        self.loads = self.loads.saturating_add(1);
        match file_front(self.alloc, &self.runtime, name, most) {
            Ok(bytes) => Ok(bytes),
            Err(error) => Err(self.refuse(error.kind())),
        }
    }
}

fn file_front<R: Files>(alloc: Global, runtime: &R, name: &str, most: u64) -> io::Result<Vec<u8>> {
    let file = fs::open(runtime, name)?;
    read_front(alloc, file, most)
}

// `read_to_end` makes room before each read, and reads again what a signal interrupts, at most 2^64 times.
fn read_front<F: Read + Drop>(alloc: Global, file: F, most: u64) -> io::Result<Vec<u8>>
    ensures { IfOk result (λ bytes. IfSome (F.remaining file) (λ all. bytes.items ≡ take most all)) }
{
    let mut bytes = Vec::new(alloc);
    file.take(most).read_to_end(&mut bytes)?;
    Ok(bytes)
}
