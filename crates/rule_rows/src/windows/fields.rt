//! The members of a row's objects.
ghost use Rattle.std.specs.Prelude.{◌≡◌, ◌≤◌, IfSome, true};
ghost use Rattle.jiff_core.specs.Calendar.{IsWithin};
ghost use Rattle.spec_series.specs.SeriesLimits.{wall_seconds};
ghost use Rattle.spec_time.specs.Walls.{is_in_years};
ghost use Rattle.occurrence_windows.specs.Bounds.{AreNear};

use jiff_tz::posix::TimeZone;
use row_table::members::wall_at;
use spec_json::text::Text;
use spec_json::tree::Tree;
use spec_time::length::Length;
use spec_time::wall::Wall;
use spec_windows::window::Window;
use std::alloc::{AllocError, Global};
use time_text::{is_in_years, read_duration, read_utc};
use zone_instants::rule_of;
use zone_table::{ZoneError, Zones};

/// The name of a row's zone in its table of zones.
const ZONE: &str = "Zone";

/// The name of the zone that is in each table.
const UTC: &str = "Etc/UTC";

/// The wall second at a key, in the years 0 to 9999.
pub fn wall_in_years(tree: &Tree, key: &str) -> Option<Wall>
    ensures { IfSome result (λ w. is_in_years w ≡ true) }
{
    match wall_at(tree, key) {
        Some(wall) => { if is_in_years(wall) { Some(wall) } else { None } }
        None => None,
    }
}

/// The length at a key, of at most 366 days.
pub fn length_at(tree: &Tree, key: &str) -> Option<Length>
    ensures { IfSome result (λ l. wall_seconds l ≤ 31622400) }
{
    match tree.text_at(key) {
        Some(text) => length_of(text),
        None => None,
    }
}

fn length_of(text: &Text) -> Option<Length>
    ensures { IfSome result (λ l. wall_seconds l ≤ 31622400) }
{
    let Some(length) = read_duration(text.as_str().as_bytes()) else {
        return None;
    };
    if 86_400 * length.days + length.seconds <= 31_622_400 {
        Some(length)
    } else {
        None
    }
}

/// The instant at a key, in seconds of UTC.
pub fn instant_at(tree: &Tree, key: &str) -> Option<i64>
    ensures { IfSome result (IsWithin 300000000000) }
{
    match tree.text_at(key) {
        Some(text) => near(read_utc(text.as_str().as_bytes())),
        None => None,
    }
}

fn near(instant: Option<i64>) -> Option<i64>
    ensures { IfSome result (IsWithin 300000000000) }
{
    match instant {
        Some(seconds) => {
            if seconds >= -300_000_000_000 && seconds <= 300_000_000_000 {
                Some(seconds)
            } else {
                None
            }
        }
        None => None,
    }
}

/// The limits at `after` and `before`.
pub fn window_at(tree: &Tree) -> Window
    ensures { AreNear result }
{
    Window {
        after: instant_at(tree, "after"),
        before: instant_at(tree, "before"),
    }
}

/// The rule at `zone`, which is the text of one or `Etc/UTC`.
pub fn rule_at(alloc: Global, tree: &Tree) -> Result<Option<TimeZone>, AllocError> {
    let mut list = Vec::new(alloc);
    let mut name = UTC;
    if let Some(text) = tree.text_at("zone") {
        if text.as_str() != UTC {
            list.push((Text::from_str(alloc, ZONE)?, text.copy()?))?;
            name = ZONE;
        }
    }
    let name = Text::from_str(alloc, name)?;
    if list.len() > 64 {
        return Ok(None);
    }
    match Zones::read(alloc, &list) {
        Ok(zones) => Ok(rule_of(&zones, &name)),
        Err(ZoneError::BadZone { .. }) => Ok(None),
        Err(ZoneError::NoMemory) => Err(AllocError),
    }
}
