//! The field `zones`.
ghost use Rattle.spec_site.specs.declared.limits.TheConstants.{MAX_ZONES};
ghost use Rattle.std.specs.Prelude.{◌≡◌, ◌≤◌, [], IfErr, IfOk, Ok, length, map};
ghost use Rattle.spec_site.specs.Configuration.{read_behind, zone_in, zone_text, zones_in};
ghost use Rattle.spec_json.specs.TreeData.{data_of};
ghost use Rattle.session_doc.specs.LeadingZones.{leading_zones};
ghost use Rattle.session_doc.specs.Reports.{ReportsField};

use crate::configuration_error::{ConfigurationError, bad};
use crate::optional_list::optional_list_at;
use spec_json::text::Text;
use spec_json::tree::Tree;
use spec_site::field::Field;
use spec_site::limits::MAX_ZONES;
use std::alloc::{AllocError, Global};
use zone_table::{ZoneError, Zones};

/// The time zones: at most 64, each with a name and a rule. Takes memory for them.
pub(crate) fn read_zones(alloc: Global, tree: &Tree) -> Result<Zones, ConfigurationError>
    ensures ok { IfOk result (λ zones. zones_in (data_of tree.now) ≡ Ok zones) }
    ensures err { IfErr result (λ error. ReportsField Field.Zones error (zones_in (data_of tree.now))) }
{
    let Some(items) = optional_list_at(tree, "zones") else {
        return Err(bad(Field::Zones, 0));
    };
    if items.len() > MAX_ZONES {
        return Err(bad(Field::Zones, 0));
    }
    read_each(alloc, items)
}

fn read_each(alloc: Global, items: &[Tree]) -> Result<Zones, ConfigurationError>
    requires { length items.now ≤ MAX_ZONES }
    ensures ok { IfOk result (λ zones. read_behind zone_in [] (map data_of items.now) ≡ Ok zones) }
    ensures err { IfErr result (λ error. ReportsField Field.Zones error (read_behind zone_in [] (map data_of items.now))) }
{
    let texts = leading_zones(alloc, items)?;
    match Zones::read(alloc, &texts) {
        Ok(zones) => {
            if texts.len() < items.len() {
                Err(bad(Field::Zones, texts.len() as u32))
            } else {
                Ok(zones)
            }
        }
        Err(ZoneError::BadZone { index }) => Err(bad(Field::Zones, index)),
        Err(ZoneError::NoMemory) => Err(ConfigurationError::NoMemory),
    }
}

// The names and rules of the items up to the first that has no such form.
fn leading_zones(alloc: Global, items: &[Tree]) -> Result<Vec<(Text, Text)>, AllocError>
    ensures { IfOk result (λ zones. zones.items ≡ leading_zones (map data_of items.now)) }
{
    let mut zones = Vec::with_capacity(alloc, items.len())?;
    for item in items {
        let Some(zone) = zone_text(item)? else {
            return Ok(zones);
        };
        zones.push(zone)?;
    }
    Ok(zones)
}

fn zone_text(item: &Tree) -> Result<Option<(Text, Text)>, AllocError>
    ensures { IfOk result (λ zone. zone ≡ zone_text (data_of item.now)) }
{
    let (Some(name), Some(rule)) = (item.text_at("name"), item.text_at("rule")) else {
        return Ok(None);
    };
    Ok(Some((name.copy()?, rule.copy()?)))
}
