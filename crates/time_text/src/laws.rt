//! The laws of texts that are written and read.
ghost use Rattle.std.specs.Prelude.{◌≡◌, ◌≤◌, ◌↔◌, ℕ, ℤ, Some, true};
ghost use Rattle.spec_core.specs.declared.numbers.TheConstants.{MAX_UNSIGNED_INT};
ghost use Rattle.spec_history.specs.States.{state_in_generation, state_text};
ghost use Rattle.spec_time.specs.LocalTimes.{HasFourDigitYear};
ghost use Rattle.spec_time.specs.Walls.{is_in_years};
ghost use Rattle.time_text.specs.ReadBack.{IsReadBack};
ghost use Rattle.time_text.specs.State.{state_in};

/// A wall second in the years 0 to 9999 that was written is read back.
pub fn written_times_are_read()
    ensures { (w : ℤ) → is_in_years w ≡ true → IsReadBack w }
{}

/// The wall seconds of the years 0 to 9999 are those that lie in a year of four digits.
pub fn years_have_four_digits()
    ensures { (w : ℤ) → is_in_years w ≡ true ↔ HasFourDigitYear w }
{}

/// A state that was written is read back (RFC 8620 section 5.1).
pub fn written_states_are_read()
    ensures { (generation number : ℕ) → generation ≤ MAX_UNSIGNED_INT → number ≤ MAX_UNSIGNED_INT
        → state_in (state_text (state_in_generation generation number)) ≡ Some (state_in_generation generation number) }
{}
