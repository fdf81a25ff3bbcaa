//! The laws of clashes, the contracts of functions that do nothing.
ghost use Rattle.std.specs.Prelude.{List, option_map};
ghost use Rattle.account_rooms.specs.Storing.{ClashesAreExact, ClashesAreFirst, ClashesAreOfStoring, OthersAreStored};
ghost use Rattle.spec_bookings.specs.Clashes.{IsClash, first_clash, second_of};
ghost use Rattle.spec_bookings.specs.declared.booking.Booking.{Booking};
ghost use Rattle.spec_series.specs.declared.series.Series.{Series};
ghost use Rattle.rule_expand.specs.Least.{IsLeastOf};

/// The search by which clashes are defined finds the least second, over all days without end, that an occurrence of a series covers
/// and that a different occurrence covers too, of the series or of a booking; and nothing exactly where there is no such second.
pub fn first_clashes_are_least()
    ensures { (bs : List Booking) (s : Series) → IsLeastOf (IsClash bs s) (option_map second_of (first_clash bs s)) }
{}

/// A booking that meets no earlier refusal is refused as a clash exactly where two different occurrences would cover one second of a
/// resource, on all days without end; of its own, or one of its own and one of another live event. The refusal tells the first such
/// second of the first such resource, and the first other event that covers it. Each other such event is stored. A create of an event
/// stores its own members under the next number, an update whose patch applies stores the patched event, and nothing else that a set does
/// is refused as a clash.
pub fn bookings_clash_where_two_would_cover_a_second()
    ensures exact { ClashesAreExact }
    ensures first { ClashesAreFirst }
    ensures others { OthersAreStored }
    ensures storing { ClashesAreOfStoring }
{}
