//! The ids that a get asks for (RFC 8620 section 5.1).
ghost use Rattle.std.specs.Prelude.{◌≡◌, IfOk, map};
ghost use Rattle.cal_model.specs.CreatedIds.{different, resolved_id};

use indexmap::IndexSet;
use object_outcomes::created_ids::CreatedIds;
use spec_json::text::Text;
use std::alloc::{AllocError, Global};

/// The ids asked for, where `#key` stands for the created id of that key, each once in order of first mention.
///
/// Those with equal hashes are compared one by one, so the caller sees to it that they are no more than a get may ask for.
pub fn asked_ids(
    alloc: Global,
    ids: &[Text],
    created: &[(Text, Text)],
) -> Result<Vec<Text>, AllocError>
    ensures { IfOk result (λ v. v.items ≡ different (map (resolved_id created.now) ids.now)) }
{
    let created = CreatedIds::of(alloc, created)?;
    let mut asked = IndexSet::with_capacity(alloc, ids.len())?;
    for id in ids {
        asked.insert(created.resolved(id).as_str())?;
    }
    texts_of(alloc, asked.as_slice())
}

fn texts_of(alloc: Global, texts: &[&str]) -> Result<Vec<Text>, AllocError>
    ensures { IfOk result (λ v. v.items ≡ map (λ t. t.now) texts.now) }
{
    let mut copies = Vec::with_capacity(alloc, texts.len())?;
    for text in texts {
        copies.push(Text::from_str(alloc, text)?)?;
    }
    Ok(copies)
}
