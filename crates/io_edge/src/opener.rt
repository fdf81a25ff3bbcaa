//! Openers: where files are loaded from, by name.

ghost use Rattle.std.specs.Prelude.{◌≡◌, ◌≤◌, IfOk};
ghost use Rattle.io_edge.specs.Outside.{CountsOne, IsMissing, IsThere, Loads, OpenerShown, Rose};

use std::alloc::AllocError;

/// Why a file wasn't loaded.
#[derive(Clone, Copy, Debug, PartialEq, Eq)]
pub enum LoadError {
    /// There is no file of this name.
    Missing,
    /// The opener failed.
    Failed,
    /// There was no memory for the bytes.
    NoMemory,
}

impl From<AllocError> for LoadError {
    ghost use Rattle.io_edge.specs.declared.opener.LoadError.TheVariants.{NoMemory};

    ghost from_gives = { λ _ error. error ≡ NoMemory };

    fn from(_: AllocError) -> LoadError {
        LoadError::NoMemory
    }
}

/// Where files are loaded from.
pub trait Opener {
    /// What contracts see of the opener.
    ghost shown: { Self → OpenerShown };

    /// Gives the bytes of the file `name`, or their first `most` where there are more.
    ///
    /// A missing file is `Missing` also where memory is short. Takes memory for the bytes.
    fn load(&mut self, name: &str, most: u64) -> Result<Vec<u8>, LoadError>
        ensures files { (shown self.new).files ≡ (shown self.old).files }
        ensures counted { CountsOne (shown self.old).loads (shown self.new).loads }
        ensures ok { IfOk result (λ bytes. Loads (shown self.old).files name.now most bytes.items) }
        ensures missing { result ≡ Err LoadError.Missing → IsMissing (shown self.old).files name.now }
        ensures no_memory { result ≡ Err LoadError.NoMemory → IsThere (shown self.old).files name.now }

        ensures later { (shown self.old).faults ≤ (shown self.new).faults }
        ensures failed { result ≡ Err LoadError.Failed → Rose (shown self.old).faults (shown self.new).faults }
        ensures missing_is_no_fault { result ≡ Err LoadError.Missing → (shown self.new).faults ≡ (shown self.old).faults };
}
