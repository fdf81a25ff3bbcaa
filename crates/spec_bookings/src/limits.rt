//! How many resources an account may have, and how many bookings each.
ghost use Rattle.std.specs.Prelude.{◌≡◌, nat_le};
ghost use Rattle.spec_bookings.specs.declared.limits.TheConstants.{MAX_BOOKINGS};

/// The most live resource calendars of an account.
pub const MAX_RESOURCES: usize = 4;

/// The most bookings of a resource.
pub const MAX_BOOKINGS: usize = 500;

/// Whether a resource with so many bookings takes no more. Takes no memory.
pub fn is_full(bookings: usize) -> bool
    ensures { result ≡ nat_le MAX_BOOKINGS bookings }
{
    bookings >= MAX_BOOKINGS
}
