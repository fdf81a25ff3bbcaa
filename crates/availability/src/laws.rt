//! The law of busy periods, the contract of a function that does nothing.
ghost use Rattle.std.specs.Prelude.{◌≡◌, ℤ, List, true};
ghost use Rattle.spec_windows.specs.BusyPeriods.{are_runs, is_busy};
ghost use Rattle.spec_windows.specs.declared.period.Period.{Period};

/// The maximal runs of busy instants are determined by which instants are busy.
pub fn runs_are_determined()
    ensures { (low high : ℤ) (ps qs : List Period) → are_runs low high ps ≡ true → are_runs low high qs ≡ true → ((u : ℤ) → is_busy ps u ≡ is_busy qs u) → ps ≡ qs }
{}
