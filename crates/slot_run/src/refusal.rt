//! Why a look for a slot is refused.
ghost use Rattle.std.specs.Prelude.{◌≡◌};
ghost use Rattle.slot_run.specs.Texts.{refusal_type};

use std::alloc::AllocError;

/// Why a look for a slot is refused, in the order in which that is tested.
#[derive(Clone, Copy, Debug, PartialEq, Eq, Drop)]
pub enum Refusal {
    /// The input is too long, or isn't a JSON text whose numbers are whole.
    NotJson,
    /// A member is missing or isn't what it may be.
    InvalidArguments,
    /// The user may not use an account of that id.
    AccountNotFound,
    /// The account has no resource calendar of that id.
    CalendarNotFound,
}

impl Refusal {
    /// The refusal's `type`. Takes no memory.
    pub(crate) fn name(self) -> &'static str
        ensures { result.now ≡ refusal_type self }
    {
        match self {
            Refusal::NotJson => "notJSON",
            Refusal::InvalidArguments => "invalidArguments",
            Refusal::AccountNotFound => "accountNotFound",
            Refusal::CalendarNotFound => "calendarNotFound",
        }
    }
}

/// Why there is no slot to tell.
#[derive(Clone, Copy, Debug, PartialEq, Eq, Drop)]
pub enum SlotError {
    /// What is asked for is refused.
    Refused(Refusal),
    /// Out of memory.
    NoMemory,
}

impl From<AllocError> for SlotError {
    ghost use Rattle.slot_run.specs.declared.refusal.SlotError.TheVariants.{NoMemory};

    ghost from_gives = { λ _ error. error ≡ NoMemory };

    fn from(_: AllocError) -> SlotError {
        SlotError::NoMemory
    }
}
