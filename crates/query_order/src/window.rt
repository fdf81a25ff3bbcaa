//! Windows of a query's result.
ghost use Rattle.std.specs.Prelude.{◌≡◌, ◌<ℤ◌, ◌^◌, pos};
ghost use Rattle.spec_queries.specs.Windows.{IsInMemory, from_position, start_of, cut_at, window_of};

use spec_queries::window::{Anchor, Cut};
use std::cmp::{max, min};

/// The part of a result of `len` items that a query asks for (RFC 8620 section 5.5): `offset` counts from the anchor, `position` without
/// one from the beginning, or from the end where it is negative.
///
/// `None` exactly for an anchor that is missing. Takes no memory.
pub fn window(len: u64, position: i64, anchor: Anchor, offset: i64, limit: u64) -> Option<Cut>
    requires { IsInMemory anchor }
    ensures { result ≡ window_of len position anchor offset limit }
{
    match start(len, position, anchor, offset) {
        Some(start) => Some(cut_from(len, start, limit)),
        None => None,
    }
}

fn start(len: u64, position: i64, anchor: Anchor, offset: i64) -> Option<i128>
    requires { IsInMemory anchor }
    ensures { result ≡ start_of len position anchor offset }
{
    match anchor {
        Anchor::None => Some(from_position(len, position)),
        Anchor::At(place) => Some(place as i128 + offset as i128),
        Anchor::Missing => None,
    }
}

fn from_position(len: u64, position: i64) -> i128
    ensures { result ≡ from_position len position }
{
    if position < 0 {
        len as i128 + position as i128
    } else {
        position as i128
    }
}

// Where the end lies beyond all numbers of 64 bits, it is that of the result.
fn cut_from(len: u64, start: i128, limit: u64) -> Cut
    requires { start <ℤ pos (2 ^ 64) }
    ensures { result ≡ cut_at len start limit }
{
    let from = max(start, 0) as u64;
    let end = min(len, from.saturating_add(limit));
    Cut {
        from,
        to: max(from, end),
    }
}
