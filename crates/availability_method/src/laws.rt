//! The laws of availability, the contracts of functions that do nothing.
ghost use Rattle.std.specs.Prelude.{◌≡◌, ◌&&◌, ◌↔◌, ℤ, pos, ◌-ℤ◌, ◌≤ℤ◌, Bool, true};
ghost use Rattle.jiff_tz.specs.PosixText.{TzText};
ghost use Rattle.spec_availability.specs.BusyInstants.{is_occupied};
ghost use Rattle.spec_availability.specs.Runs.{runs_in};
ghost use Rattle.spec_series.specs.declared.series.Series.{Series};
ghost use Rattle.spec_windows.specs.BusyPeriods.{are_runs, is_busy, lies_in, IsOccupied};
ghost use Rattle.spec_windows.specs.Clocks.{instant_in};
ghost use Rattle.spec_windows.specs.declared.period.Period.{Period};

/// The search over recurrence ids finds what takes an instant up exactly where an occurrence of the series takes it up, in every zone.
pub fn events_take_up_their_occurrences()
    ensures { (s : Series) (rule : TzText) (u : ℤ) → (is_occupied s (instant_in rule) u ≡ true) ↔ IsOccupied s (instant_in rule) u }
{}

/// The runs of a test in a window are runs, and cover just the instants of the window that pass.
pub fn runs_are_of_the_test()
    ensures runs { (passes : ℤ → Bool) (window : Period) → window.from ≤ℤ window.to → are_runs (window.from -ℤ pos 1) window.to (runs_in passes window) ≡ true }
    ensures cover { (passes : ℤ → Bool) (window : Period) → window.from ≤ℤ window.to → (u : ℤ) → is_busy (runs_in passes window) u ≡ (lies_in u window && passes u) }
{}
