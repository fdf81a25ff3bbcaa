//! Windows of instants.
ghost use Rattle.std.specs.Prelude.{◌≡◌};
ghost use Rattle.spec_windows.specs.Windows.{keeps_limits};

use crate::period::Period;

/// What an occurrence has to end after and to begin before.
#[derive(Clone, Copy, Debug, PartialEq, Eq, Drop)]
pub struct Window {
    /// The instant that its end is after, in seconds of UTC from 1970, if there is one.
    pub after: Option<i64>,
    /// The instant that its start is before, in seconds of UTC from 1970, if there is one.
    pub before: Option<i64>,
}

impl Window {
    /// Whether a period ends after the one limit and begins before the other. Takes no memory.
    #[tactic(auto, unfolding(crate::specs::Windows::keeps_limits))]
    pub fn overlaps(self, period: Period) -> bool
        ensures { result ≡ keeps_limits self period }
    {
        let ends = match self.after {
            None => true,
            Some(after) => after < period.to,
        };
        let begins = match self.before {
            None => true,
            Some(before) => period.from < before,
        };
        ends && begins
    }
}
