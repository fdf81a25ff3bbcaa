//! Why queries aren't answered.

use spec_calls::call::MethodError;
use std::alloc::{AllocError, AllocFailed};

/// Why a query, or a call for what changed of its result, isn't answered.
#[derive(Drop)]
pub enum QueryError {
    /// The call is refused.
    Method(MethodError),
    /// There was no memory.
    NoMemory,
}

impl From<AllocError> for QueryError {
    ghost use Rattle.std.specs.Prelude.{◌≡◌};
    ghost use Rattle.query_methods.specs.declared.error.QueryError.TheVariants.{NoMemory};

    ghost from_gives = { λ _ error. error ≡ NoMemory };

    fn from(_: AllocError) -> Self {
        QueryError::NoMemory
    }
}

impl<T: Drop> From<AllocFailed<T>> for QueryError {
    ghost use Rattle.std.specs.Prelude.{◌≡◌};
    ghost use Rattle.query_methods.specs.declared.error.QueryError.TheVariants.{NoMemory};

    ghost from_gives = { λ _ error. error ≡ NoMemory };

    fn from(_: AllocFailed<T>) -> Self {
        QueryError::NoMemory
    }
}
