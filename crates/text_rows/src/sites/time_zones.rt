//! Rows of time zones: names with their rules, and the table of zones that they come to.
ghost use Rattle.std.specs.Prelude.{◌≡◌, pos, true};
ghost use Rattle.spec_json.specs.Data.{whole};
ghost use Rattle.spec_json.specs.TreeData.{data_of};

use row_table::trial::NOT_READ;
use spec_json::text::Text;
use spec_json::tree::{Tree, TreeList, TreeObject};
use std::alloc::{AllocError, Global};
use zone_table::{ZoneError, Zones};

/// The most zones of a table.
const MAX_ZONES: usize = 64;

/// What came of a list of pairs of a name and a rule, where it isn't what the table has.
///
/// A number is the place of the zone that is told as bad. An object has the names of zones that are there, `has`, and of some that aren't,
/// `lacks`.
pub fn other_than_zones(
    alloc: Global,
    list: &Tree,
    answer: &Tree,
) -> Result<Option<String>, AllocError> {
    let Some(pairs) = pairs_in(alloc, list)? else {
        return other(alloc, NOT_READ);
    };
    if pairs.len() > MAX_ZONES {
        return other(alloc, "the row has too many zones");
    }
    match Zones::read(alloc, &pairs) {
        Ok(zones) => other_than_named(alloc, &zones, &pairs, answer),
        Err(ZoneError::BadZone { index }) => other_than_place(alloc, index, answer),
        Err(ZoneError::NoMemory) => Err(AllocError),
    }
}

fn other(alloc: Global, came: &str) -> Result<Option<String>, AllocError> {
    Ok(Some(String::from_str(alloc, came)?))
}

/// The names with their rules, none where the list has something else.
fn pairs_in(alloc: Global, list: &Tree) -> Result<Option<Vec<(Text, Text)>>, AllocError> {
    let Tree::List(list) = list else {
        return Ok(None);
    };
    let mut pairs = Vec::new(alloc);
    for item in list.items() {
        let Some(pair) = pair_in(item)? else {
            return Ok(None);
        };
        pairs.push(pair)?;
    }
    Ok(Some(pairs))
}

fn pair_in(item: &Tree) -> Result<Option<(Text, Text)>, AllocError> {
    let Tree::List(pair) = item else {
        return Ok(None);
    };
    match pair.items().as_slice() {
        [Tree::Text(name), Tree::Text(rule)] => Ok(Some((name.copy()?, rule.copy()?))),
        _ => Ok(None),
    }
}

fn other_than_place(
    alloc: Global,
    index: u32,
    answer: &Tree,
) -> Result<Option<String>, AllocError> {
    if is_place(index, answer) {
        Ok(None)
    } else {
        Ok(Some(format!(in alloc; "{index}")?))
    }
}

/// Whether an answer is the number of this place.
fn is_place(index: u32, answer: &Tree) -> bool
    ensures { result ≡ true → data_of answer.now ≡ whole (pos index) }
{
    match answer {
        Tree::Whole(place) => place.get() == i128::from(index),
        _ => false,
    }
}

fn other_than_named(
    alloc: Global,
    zones: &Zones,
    pairs: &[(Text, Text)],
    answer: &Tree,
) -> Result<Option<String>, AllocError> {
    let Tree::Object(answer) = answer else {
        return other(alloc, "a table of the zones");
    };
    if !is_listed(zones, pairs) {
        return other(alloc, "a table of other zones");
    }
    if !all_at(zones, answer, "has", true) {
        return other(alloc, "a table without a zone of `has`");
    }
    if !all_at(zones, answer, "lacks", false) {
        return other(alloc, "a table with a zone of `lacks`");
    }
    Ok(None)
}

/// Whether the zones are just these, in order.
fn is_listed(zones: &Zones, pairs: &[(Text, Text)]) -> bool {
    let items = zones.items();
    items.len() == pairs.len()
        && items.iter().zip(pairs).all(|(zone, (name, rule))| {
            zone.name().as_str() == name.as_str() && zone.rule_text().as_str() == rule.as_str()
        })
}

/// Whether the zones have each name of the list at a key, or have none of them.
fn all_at(zones: &Zones, object: &TreeObject, key: &str, has_them: bool) -> bool {
    match object.get(key) {
        Some(Tree::List(names)) => names.items().iter().all(|name| match name {
            Tree::Text(name) => zones.has(name) == has_them,
            _ => false,
        }),
        _ => false,
    }
}
