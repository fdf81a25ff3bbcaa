//! The rules of time zones.
ghost use Rattle.std.specs.Prelude.{◌≡◌, ◌↔◌, option_map, IsSome, IsTrue};
ghost use Rattle.std.specs.List.{list_any};
ghost use Rattle.std.specs.Str.{bytes_eq};
ghost use Rattle.jiff_tz.specs.PosixText.{tz_view};
ghost use Rattle.spec_json.specs.TreeData.{data_of};
ghost use Rattle.spec_site.specs.TimeZones.{has_zone};
ghost use Rattle.spec_windows.specs.ZoneRules.{listed_rule, rule_of, rule_of_event, utc_rule};

use jiff_core::Offset;
use jiff_tz::Abbreviation;
use jiff_tz::posix::TimeZone;
use spec_json::text::Text;
use spec_json::tree::Tree;
use zone_table::{Zone, Zones};

/// The name of the zone that is always there.
const UTC: &str = "Etc/UTC";

// A clock that shows UTC.
fn utc() -> TimeZone
    ensures { tz_view result ≡ utc_rule }
{
    TimeZone {
        std_abbrev: Abbreviation::utc(),
        std_offset: Offset::UTC,
        dst: None,
    }
}

fn is_named(zone: &Zone, name: &Text) -> bool
    ensures { result ≡ bytes_eq zone.now.0 name.now }
{
    zone.name().as_str() == name.as_str()
}

// The rule of the first zone of a name.
fn listed_rule(zones: &[Zone], name: &Text) -> Option<TimeZone>
    ensures rule { option_map tz_view result ≡ listed_rule zones.now name.now }
    ensures there { IsSome result ↔ IsTrue (list_any (λ z. bytes_eq z.0 name.now) zones.now) }
{
    for zone in zones {
        if is_named(zone, name) {
            return Some(*zone.rule());
        }
    }
    None
}

/// The rule of the zone of a name, as `jiff` reads it, or `None` where no zone has the name. `Etc/UTC` always is there.
/// Takes no memory.
pub fn rule_of(zones: &Zones, name: &Text) -> Option<TimeZone>
    ensures rule { option_map tz_view result ≡ rule_of zones.now name.now }
    ensures there { IsSome result ↔ IsTrue (has_zone zones.now name.now) }
{
    if name.as_str() == UTC {
        return Some(utc());
    }
    listed_rule(zones.items(), name)
}

/// The rule of an event's zone, or of the zone of a name for an event that has none and is floating (RFC 8984 section 4.7.1). `None`
/// where there is no such zone. Takes no memory.
pub fn rule_of_event(zones: &Zones, floating: &Text, event: &Tree) -> Option<TimeZone>
    ensures { option_map tz_view result ≡ rule_of_event zones.now floating.now (data_of event.now) }
{
    match event.text_at("timeZone") {
        Some(name) => rule_of(zones, name),
        None => rule_of(zones, floating),
    }
}
