//! Openers in memory.

ghost use Rattle.std.specs.Prelude.{◌≡◌, ◌≤◌, Err, IfOk, Some, map, string_bytes};
ghost use Rattle.io_edge.specs.FailingCalls.{CountsCall, faults_of};
ghost use Rattle.io_edge.specs.Outside.{CountsOne, IsMissing, IsThere, Loads, Rose};

use crate::failing_calls::FailingCalls;
use crate::opener::{LoadError, Opener};
use std::alloc::Global;

/// Has files by name, and never fails. Of files with one name the first counts.
#[derive(Drop)]
pub struct SureOpener {
    alloc: Global,
    files: Vec<(String, Vec<u8>)>,
    loads: u64,
}

impl SureOpener {
    /// Makes an opener of these files. Takes no memory.
    pub fn new(alloc: Global, files: Vec<(String, Vec<u8>)>) -> SureOpener
        ensures { (⟦<SureOpener as Opener>⟧.shown result).files ≡ Some (map (λ file. (string_bytes file.0, file.1.items)) files.items) }
    {
        SureOpener {
            alloc,
            files,
            loads: 0,
        }
    }
}

impl Opener for SureOpener {
    ghost shown = { λ opener. record { files = Some (map (λ file. (string_bytes file.0, file.1.items)) opener.files.items); loads = opener.loads; faults = 0 } };

    fn load(&mut self, name: &str, most: u64) -> Result<Vec<u8>, LoadError> {
        self.loads = self.loads.saturating_add(1);
        for file in &self.files {
            if file.0.as_str() == name {
                let count = most.min(file.1.len() as u64) as usize;
                return Ok(file.1[..count].to_vec(self.alloc)?);
            }
        }
        Err(LoadError::Missing)
    }
}

/// Has files by name, and fails at the calls that it lists. Of files with one name the first counts.
#[derive(Drop)]
pub struct MemOpener {
    inner: SureOpener,
    failing: FailingCalls,
}

impl MemOpener {
    ghost use Rattle.io_edge.specs.MemoryForms.{failing_loads};

    /// Makes an opener of these files.
    ///
    /// The calls of `load` whose numbers, from 0, stand in `failing` fail. Takes no memory.
    pub fn new(alloc: Global, files: Vec<(String, Vec<u8>)>, failing: Vec<u64>) -> MemOpener
        ensures files { (⟦<MemOpener as Opener>⟧.shown result).files ≡ Some (map (λ file. (string_bytes file.0, file.1.items)) files.items) }
        ensures faults { (⟦<MemOpener as Opener>⟧.shown result).faults ≡ 0 }
        ensures failing { failing_loads result ≡ failing.items }
    {
        MemOpener {
            inner: SureOpener::new(alloc, files),
            failing: FailingCalls::new(failing),
        }
    }
}

impl Opener for MemOpener {
    ghost shown = { λ opener. record { files = Some (map (λ file. (string_bytes file.0, file.1.items)) opener.inner.files.items); loads = opener.failing.calls; faults = faults_of opener.failing } };

    fn load(&mut self, name: &str, most: u64) -> Result<Vec<u8>, LoadError>
        ensures files { (⟦<MemOpener as Opener>⟧.shown self.new).files ≡ (⟦<MemOpener as Opener>⟧.shown self.old).files }
        ensures counted { CountsOne (⟦<MemOpener as Opener>⟧.shown self.old).loads (⟦<MemOpener as Opener>⟧.shown self.new).loads }
        ensures ok { IfOk result (λ bytes. Loads (⟦<MemOpener as Opener>⟧.shown self.old).files name.now most bytes.items) }
        ensures missing { result ≡ Err LoadError.Missing → IsMissing (⟦<MemOpener as Opener>⟧.shown self.old).files name.now }
        ensures no_memory { result ≡ Err LoadError.NoMemory → IsThere (⟦<MemOpener as Opener>⟧.shown self.old).files name.now }
        ensures later { (⟦<MemOpener as Opener>⟧.shown self.old).faults ≤ (⟦<MemOpener as Opener>⟧.shown self.new).faults }
        ensures failed { result ≡ Err LoadError.Failed → Rose (⟦<MemOpener as Opener>⟧.shown self.old).faults (⟦<MemOpener as Opener>⟧.shown self.new).faults }
        ensures missing_is_no_fault { result ≡ Err LoadError.Missing → (⟦<MemOpener as Opener>⟧.shown self.new).faults ≡ (⟦<MemOpener as Opener>⟧.shown self.old).faults }

        // The listed calls fail and no other does.
        ensures listed { CountsCall self.old.failing self.new.failing (result ≡ Err LoadError.Failed) }
    {
        if self.failing.next_fails() {
            return Err(LoadError::Failed);
        }
        self.inner.load(name, most)
    }
}
