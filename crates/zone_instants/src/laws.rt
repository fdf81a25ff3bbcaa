//! The law of instants, the contract of a function that does nothing.
ghost use Rattle.std.specs.Prelude.{◌≡◌, ◌-ℤ◌, ℕ, ℤ, List, Some};
ghost use Rattle.jiff_core.specs.Timestamp.{IsOffsetSeconds};
ghost use Rattle.jiff_tz.specs.PosixReader.{read_whole};
ghost use Rattle.jiff_tz.specs.PosixText.{TzText};
ghost use Rattle.spec_windows.specs.Clocks.{instant_in};

/// An instant lies less than 26 hours from its wall second, by every rule that a text gives.
pub fn instants_lie_near()
    ensures { (text : List ℕ) (tz : TzText) (w t : ℤ) → read_whole text ≡ Some tz → instant_in tz w ≡ Some t → IsOffsetSeconds (t -ℤ w) }
{}
