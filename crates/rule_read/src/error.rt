//! Why there are no rules.
ghost use Rattle.std.specs.Prelude.{◌≡◌};
ghost use Rattle.rule_read.specs.declared.error.RulesError.TheVariants.{NoMemory};

use std::alloc::AllocError;

/// Why no rules were read.
#[derive(Clone, Copy, Debug, PartialEq, Eq, Drop)]
pub enum RulesError {
    /// They aren't rules of this project's profile.
    BadRules,
    /// Out of memory.
    NoMemory,
}

impl From<AllocError> for RulesError {
    ghost from_gives = { λ _ error. error ≡ NoMemory };

    fn from(_: AllocError) -> Self {
        RulesError::NoMemory
    }
}
