//! Rows of events with rules and overrides: what is bad in them, and their occurrences.
use event_model::ids::read_occurrence_id;
use event_model::names::bad_event_names;
use event_model::occurrence::occurrence;
use row_table::answers::{texts_of, word};
use row_table::plain_event::over_plain;
use spec_json::tree::Tree;
use spec_time::wall::Wall;
use std::alloc::{AllocError, Global};
use time_text::is_in_years;
use zone_table::Zones;

/// The names of all bad properties of the plain event with these members laid over it, in a list.
pub fn bad(alloc: Global, zones: &Zones, members: Tree) -> Result<Option<Tree>, AllocError> {
    let Some(event) = over_plain(alloc, members)? else {
        return Ok(None);
    };
    let names = bad_event_names(alloc, &event, zones)?;
    Ok(Some(texts_of(alloc, &names)?))
}

/// The occurrence that the synthetic id at `id` names, of the plain event with the members at `event` laid over it.
///
/// Null where it has none, and `no id` where the text is no synthetic id.
pub fn named(alloc: Global, question: &Tree) -> Result<Option<Tree>, AllocError> {
    let (Some(id), Some(members)) = (question.text_at("id"), question.get("event")) else {
        return Ok(None);
    };
    let Some(event) = over_plain(alloc, members.copy()?)? else {
        return Ok(None);
    };
    match read_occurrence_id(id.as_str().as_bytes()) {
        Some((number, rid)) => Ok(Some(seen(alloc, number, &event, rid)?)),
        None => Ok(Some(word(alloc, "no id")?)),
    }
}

fn seen(alloc: Global, number: u64, event: &Tree, rid: Wall) -> Result<Tree, AllocError> {
    if !is_in_years(rid) {
        return word(alloc, "outside the years 0 to 9999");
    }
    match occurrence(alloc, number, event, rid)? {
        Some(object) => Ok(Tree::Object(object)),
        None => Ok(Tree::Null),
    }
}
