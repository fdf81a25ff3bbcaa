//! What a plan gives.

use spec_calls::call::MethodError;
use spec_json::lists::Pairs;
use spec_json::tree::Tree;
use std::alloc::{AllocError, AllocFailed};

/// What a call replies whose changes are staged.
#[derive(Drop)]
pub struct Plan {
    /// The arguments of the response (RFC 8620 section 5.3).
    pub arguments: Tree,
    /// The creation ids of the objects that are created, each with the new id.
    pub created: Pairs,
}

/// Why there is no plan. Nothing is staged then.
#[derive(Drop)]
pub enum PlanError {
    /// The call is refused as a whole.
    Method(MethodError),
    /// There was no memory.
    NoMemory,
}

impl From<AllocError> for PlanError {
    ghost use Rattle.std.specs.Prelude.{◌≡◌};
    ghost use Rattle.set_methods.specs.declared.planned.PlanError.TheVariants.{NoMemory};

    ghost from_gives = { λ _ error. error ≡ NoMemory };

    fn from(_: AllocError) -> Self {
        PlanError::NoMemory
    }
}

impl<T: Drop> From<AllocFailed<T>> for PlanError {
    ghost use Rattle.std.specs.Prelude.{◌≡◌};
    ghost use Rattle.set_methods.specs.declared.planned.PlanError.TheVariants.{NoMemory};

    ghost from_gives = { λ _ error. error ≡ NoMemory };

    fn from(_: AllocFailed<T>) -> Self {
        PlanError::NoMemory
    }
}
