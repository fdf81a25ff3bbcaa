//! How much the reply to a query holds.
ghost use Rattle.std.specs.Prelude.{◌≡◌};
ghost use Rattle.spec_queries.specs.Found.{is_own_limit, most_ids};

use spec_json::num::Num;
use std::cmp::min;

/// The most ids of a reply to a query (RFC 8620 section 5.5).
pub const MAX_IDS_IN_QUERY: usize = 1000;

/// The most wall seconds from `after` to `before` where each occurrence is a result of its own, 366 days.
pub const MAX_EXPANDED_SECONDS: u64 = 31_622_400;

/// The most ids that the reply to a query of this limit has. Takes no memory.
pub fn most_ids(limit: Option<Num>) -> u64
    ensures { result ≡ most_ids limit }
{
    match limit {
        Some(limit) => min(limit.get().unsigned_abs(), MAX_IDS_IN_QUERY as u128) as u64,
        None => MAX_IDS_IN_QUERY as u64,
    }
}

/// Whether the limit of the client is no more than that of the server. Takes no memory.
pub fn is_own_limit(limit: Option<Num>) -> bool
    ensures { result ≡ is_own_limit limit }
{
    match limit {
        Some(limit) => limit.get().unsigned_abs() <= MAX_IDS_IN_QUERY as u128,
        None => false,
    }
}
