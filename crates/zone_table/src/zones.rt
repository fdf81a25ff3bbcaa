//! The table of time zones.
ghost use Rattle.spec_site.specs.declared.limits.TheConstants.{MAX_ZONES};
ghost use Rattle.std.specs.Prelude.{◌≡◌, ◌≤◌, [], None, IfErr, IfOk, IsTrue, OnOk, length};
ghost use Rattle.std.specs.List.{list_any};
ghost use Rattle.std.specs.Option.{SomeIff};
ghost use Rattle.std.specs.Str.{bytes_eq};
ghost use Rattle.zone_table.specs.Reports.{Reports};
ghost use Rattle.spec_core.specs.Names.{is_name};
ghost use Rattle.spec_site.specs.TimeZones.{first_bad_zone, has_zone, is_good_zone};
ghost use Rattle.zone_table.specs.declared.zones.ZoneError.TheVariants.{NoMemory};

use crate::zone::Zone;
use spec_core::names::is_name;
use spec_json::text::Text;
use std::alloc::{AllocError, AllocFailed, Global};
use std::marker::Model;

/// The name of the zone that is always there.
const UTC: &str = "Etc/UTC";

/// Why there is no table.
#[derive(Clone, Copy, Debug, PartialEq, Eq)]
pub enum ZoneError {
    /// A zone's name is empty, longer than 255 bytes, `Etc/UTC` or that of an earlier zone, or `jiff` refuses its rule.
    BadZone {
        /// The place of the first such zone in the list, from 0.
        index: u32,
    },
    /// There was no memory.
    NoMemory,
}

impl From<AllocError> for ZoneError {
    ghost from_gives = { λ _ error. error ≡ NoMemory };

    fn from(_: AllocError) -> Self {
        ZoneError::NoMemory
    }
}

impl<T: Drop> From<AllocFailed<T>> for ZoneError {
    ghost from_gives = { λ _ error. error ≡ NoMemory };

    fn from(_: AllocFailed<T>) -> Self {
        ZoneError::NoMemory
    }
}

/// The time zones of a configuration, beside `Etc/UTC`. Contracts see the name and the text of the rule of each, in order.
#[derive(Drop)]
pub struct Zones {
    items: Vec<Zone>,
}

impl Model for Zones {
    ghost use Rattle.std.specs.Prelude.{List, ℕ};

    ghost Value = { List (List ℕ × List ℕ) };

    ghost view = { λ a. a.items.items };
}

impl Zones {
    /// Reads a list of names, each with its rule, a POSIX `TZ` string (RFC 9636 section 3.3.1).
    ///
    /// `BadZone` tells the first zone whose name is empty, longer than 255 bytes, `Etc/UTC` or that of an earlier zone, or
    /// whose rule `jiff` refuses. Takes memory for a copy of the list.
    pub fn read(alloc: Global, list: &[(Text, Text)]) -> Result<Zones, ZoneError>
        requires { length list.now ≤ MAX_ZONES }
        ensures zones { IfOk result (λ zones. zones ≡ list.now) }
        ensures good { OnOk result (first_bad_zone [] list.now ≡ None) }
        ensures err { IfErr result (λ error. Reports error (first_bad_zone [] list.now)) }
    {
        let mut zones = Vec::with_capacity(alloc, list.len())?;
        for (name, rule) in list {
            let Some(zone) = good_zone(&zones, name, rule)? else {
                return Err(ZoneError::BadZone {
                    index: zones.len() as u32,
                });
            };
            zones.push(zone)?;
        }
        Ok(Zones { items: zones })
    }

    /// Whether a zone of this name is there. `Etc/UTC` always is. Takes no memory.
    pub fn has(&self, name: &Text) -> bool
        ensures { result ≡ has_zone self.now name.now }
    {
        has_zone(&self.items, name)
    }

    /// The zones beside `Etc/UTC`, in order. Takes no memory.
    pub fn items(&self) -> &Vec<Zone>
        ensures { result.now.items ≡ self.now }
    {
        &self.items
    }
}

// The zone of a name and a rule, where it may stand behind these.
fn good_zone(earlier: &[Zone], name: &Text, rule: &Text) -> Result<Option<Zone>, AllocError>
    ensures { IfOk result (λ zone. SomeIff zone (IsTrue (is_good_zone earlier.now (name.now, rule.now))) (name.now, rule.now)) }
{
    if !is_name(name.as_str()) || has_zone(earlier, name) {
        return Ok(None);
    }
    Zone::read(name, rule)
}

fn has_zone(zones: &[Zone], name: &Text) -> bool
    ensures { result ≡ has_zone zones.now name.now }
{
    name.as_str() == UTC || is_listed(zones, name)
}

fn is_listed(zones: &[Zone], name: &Text) -> bool
    ensures { result ≡ list_any (λ z. bytes_eq z.0 name.now) zones.now }
{
    zones
        .iter()
        .any(|zone| zone.name().as_str() == name.as_str())
}
