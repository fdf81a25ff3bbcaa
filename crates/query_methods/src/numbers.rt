//! The numbers that requests give.
ghost use Rattle.std.specs.Prelude.{◌≡◌, true};
ghost use Rattle.std.specs.Option.{option_map_or};
ghost use Rattle.spec_queries.specs.Queries.{is_int, is_paging};
ghost use Rattle.spec_queries.specs.States.{is_maximum};
ghost use Rattle.spec_json.specs.Data.{whole};
ghost use Rattle.property_table.specs.Values.{is_unsigned_int};

use spec_calls::call::Paging;
use spec_core::numbers::MAX_UNSIGNED_INT;
use spec_json::num::Num;

/// Whether positions and offsets are Ints, and the limit is an UnsignedInt (RFC 8620 section 1.3). Takes no memory.
pub fn is_paging(paging: &Paging) -> bool
    ensures { result ≡ is_paging paging.now }
{
    is_int(paging.position) && is_int(paging.anchor_offset) && is_limit(paging.limit)
}

fn is_int(number: Num) -> bool
    ensures { result ≡ is_int number }
{
    number.get().unsigned_abs() <= MAX_UNSIGNED_INT as u128
}

fn is_limit(limit: Option<Num>) -> bool
    ensures { result ≡ option_map_or (λ n. is_unsigned_int (whole n)) limit true }
{
    match limit {
        Some(limit) => limit.get() >= 0 && limit.get() <= MAX_UNSIGNED_INT as i128,
        None => true,
    }
}

/// Whether a maximum is an UnsignedInt above 0 (RFC 8620 section 1.3). Takes no memory.
pub fn is_maximum(most: Option<Num>) -> bool
    ensures { result ≡ is_maximum most }
{
    match most {
        Some(most) => most.get() >= 1 && most.get() <= MAX_UNSIGNED_INT as i128,
        None => true,
    }
}
