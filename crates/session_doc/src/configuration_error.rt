//! Why a configuration is no site.
ghost use Rattle.std.specs.Prelude.{◌≡◌};
ghost use Rattle.session_doc.specs.declared.configuration_error.ConfigurationError.TheVariants.{NoMemory};

use spec_site::field::Field;
use std::alloc::{AllocError, AllocFailed};

/// Why there is no site.
#[derive(Clone, Copy, Debug, PartialEq, Eq)]
pub enum ConfigurationError {
    /// The configuration has a bad field.
    Bad {
        /// The first bad field, in the order of `Field`.
        field: Field,
        /// The place of the first bad item of the field, from 0; 0 where no item is bad alone.
        index: u32,
    },
    /// There was no memory.
    NoMemory,
}

impl From<AllocError> for ConfigurationError {
    ghost from_gives = { λ _ error. error ≡ NoMemory };

    fn from(_: AllocError) -> Self {
        ConfigurationError::NoMemory
    }
}

impl<T: Drop> From<AllocFailed<T>> for ConfigurationError {
    ghost from_gives = { λ _ error. error ≡ NoMemory };

    fn from(_: AllocFailed<T>) -> Self {
        ConfigurationError::NoMemory
    }
}

/// The error of a field that is bad at this item. Takes no memory.
pub(crate) fn bad(field: Field, index: u32) -> ConfigurationError
    ensures { result ≡ ConfigurationError.Bad field index }
{
    ConfigurationError::Bad { field, index }
}
