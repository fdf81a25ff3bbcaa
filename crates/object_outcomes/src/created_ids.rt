//! The ids that the texts of a call stand for (RFC 8620 section 5.3).
ghost use Rattle.std.specs.Prelude.{◌≡◌, ◌++◌, ◌∷◌, [], IfOk, List, OnOk, Some, if◌then◌else◌, option_and_then, option_map, ℕ};
ghost use Rattle.std.specs.BTreeMap.{get_by_text};
ghost use Rattle.std.specs.Str.{bytes_eq};
ghost use Rattle.cal_model.specs.CreatedIds.{created_id_at, resolved_id};
ghost use Rattle.spec_json.specs.Parts.{behind_hash};

use spec_json::text::Text;
use std::alloc::{AllocError, Global};
use std::collections::BTreeMap;
use std::marker::Model;

// In order, since clients choose the keys and could make the hashes of many equal.
type IdsByKey = BTreeMap<String, Text>;

/// The ids of created objects by their creation ids. Contracts see the pairs, of which the last of a key counts.
#[derive(Drop)]
pub struct CreatedIds {
    pairs: Vec<(Text, Text)>,
    by_key: IdsByKey,
}

impl Model for CreatedIds {
    ghost use Rattle.std.specs.Prelude.{◌≡◌, List, ℕ};
    ghost use Rattle.std.specs.BTreeMap.{get_by_text};
    ghost use Rattle.cal_model.specs.CreatedIds.{created_id_at};

    ghost Value = { List (List ℕ × List ℕ) };

    ghost view = { λ a. a.pairs.items };

    ghost invariant = { λ a. (key : List ℕ) → get_by_text a.by_key key ≡ created_id_at a.pairs.items key };
}

impl CreatedIds {
    /// The ids of these pairs. Takes memory for two copies of each.
    pub fn of(alloc: Global, pairs: &[(Text, Text)]) -> Result<CreatedIds, AllocError>
        ensures { IfOk result (λ ids. ids ≡ pairs.now) }
    {
        let mut ids = CreatedIds {
            pairs: Vec::with_capacity(alloc, pairs.len())?,
            by_key: BTreeMap::new(alloc),
        };
        for (key, id) in pairs {
            ids = ids.with(alloc, key, id.copy()?)?;
        }
        Ok(ids)
    }

    /// The ids with one more, which counts before those of the same key. Takes memory for copies.
    pub fn with(self, alloc: Global, key: &Text, id: Text) -> Result<CreatedIds, AllocError>
        ensures { IfOk result (λ ids. ids ≡ self ++ (key.now, id) ∷ []) }
    {
        let CreatedIds {
            mut pairs,
            mut by_key,
        } = self;
        put(alloc, &mut by_key, key, id.copy()?)?;
        pairs.push((key.copy()?, id))?;
        Ok(CreatedIds { pairs, by_key })
    }

    /// The created id of the key behind the `#` that a text begins with. Takes no memory.
    pub fn created(&self, id: &str) -> Option<&Text>
        ensures { option_map (λ t. t.now) result ≡ option_and_then (created_id_at self.now) (behind_hash id.now) }
    {
        self.by_key.get(key_behind_hash(id)?)
    }

    /// The id that a text stands for: `#key` is the created id of that key, where there is one. Takes no memory.
    pub fn resolved<'t>(&'t self, id: &'t Text) -> &'t Text
        ensures { result.now ≡ resolved_id self.now id.now }
    {
        self.created(id.as_str()).unwrap_or(id)
    }
}

// Puts an id at a creation id, in the place of one that stands there.
fn put(alloc: Global, ids: &mut IdsByKey, key: &Text, id: Text) -> Result<(), AllocError>
    ensures { OnOk result ((q : List ℕ) → get_by_text ids.new q ≡ (if bytes_eq key.now q then Some id else get_by_text ids.old q)) }
{
    ids.insert(String::from_str(alloc, key.as_str())?, id)?;
    Ok(())
}

// What stands behind the `#` of a text that begins with one, as a reference to a creation id does.
fn key_behind_hash(id: &str) -> Option<&str>
    ensures { option_map (λ t. t.now) result ≡ behind_hash id.now }
{
    id.strip_prefix('#')
}
