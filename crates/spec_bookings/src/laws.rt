//! The laws of bookings, the contracts of functions that do nothing.
ghost use Rattle.std.specs.Prelude.{◌≡◌, ℕ, List, [], ◌∷◌, ◌++◌, Option};
ghost use Rattle.spec_json.specs.declared.tree.Tree.{Tree};
ghost use Rattle.spec_history.specs.declared.entry.Change.{Change};
ghost use Rattle.spec_history.specs.declared.entry.Kind.TheVariants.{Event};
ghost use Rattle.spec_history.specs.History.{live_object};
ghost use Rattle.spec_series.specs.declared.series.Series.{Series};
ghost use Rattle.spec_bookings.specs.declared.booking.Booking.{Booking};
ghost use Rattle.spec_bookings.specs.Bookings.{without_booking, with_booking};
ghost use Rattle.spec_bookings.specs.Clashes.{IsClear};
ghost use Rattle.spec_bookings.specs.AfterChange.{after_change};
ghost use Rattle.spec_bookings.specs.HistoryBookings.{booked_by, bookings_at};
ghost use Rattle.spec_bookings.specs.Rising.{Rise, series_booked};
ghost use Rattle.spec_bookings.specs.Free.{IsFree};

/// The bookings of a resource at a history are the series that its live events book there, in order of their numbers, and each
/// change makes one step of them.
pub fn bookings_are_of_live_events()
    ensures rise { (books : Tree → Option Series) (cs : List Change) → Rise (bookings_at books cs) }
    ensures each { (books : Tree → Option Series) (cs : List Change) (n : ℕ) → series_booked n (bookings_at books cs) ≡ booked_by books (live_object cs Event n) }
    ensures step { (books : Tree → Option Series) (cs : List Change) (c : Change) → bookings_at books (cs ++ c ∷ []) ≡ after_change books c (bookings_at books cs) }
{}

/// Where no second is covered twice, it stays so when an event's booking is taken out, and when a series is booked that clashes with
/// none.
pub fn bookings_stay_free()
    ensures fewer { (bs : List Booking) (n : ℕ) → IsFree bs → IsFree (without_booking n bs) }
    ensures more { (bs : List Booking) (n : ℕ) (s : Series) → IsFree bs → IsClear bs s → IsFree (with_booking n s bs) }
{}
