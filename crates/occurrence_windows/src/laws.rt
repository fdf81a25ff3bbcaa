//! The law of occurrences that overlap a window, the contract of a function that does nothing.
ghost use Rattle.std.specs.Prelude.{◌≡◌, ◌↔◌, true};
ghost use Rattle.jiff_tz.specs.PosixText.{TzText};
ghost use Rattle.spec_series.specs.declared.series.Series.{Series};
ghost use Rattle.spec_windows.specs.Clocks.{instant_in};
ghost use Rattle.spec_windows.specs.Overlaps.{has_overlapping};
ghost use Rattle.spec_windows.specs.Windows.{HasOverlapping};
ghost use Rattle.spec_windows.specs.declared.window.Window.{Window};

/// A search over recurrence ids finds an occurrence that overlaps a window exactly where the series has one.
pub fn overlaps_are_found()
    ensures { (s : Series) (rule : TzText) (w : Window) → has_overlapping s (instant_in rule) w ≡ true ↔ HasOverlapping s (instant_in rule) w }
{}
