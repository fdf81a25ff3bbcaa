//! Rows of filters: whether they are such, what they ask for, and whether they hold of an event.
use event_series::read::read_series;
use query_filter::{Filter, FilterError};
use row_table::answers::{local_time, word};
use row_table::plain_event::over_plain;
use spec_json::text::Text;
use spec_json::tree::{Tree, TreeList};
use std::alloc::{AllocError, Global};
use zone_instants::{rule_of, rule_of_event};
use zone_table::Zones;

/// The name of the query's zone, where a row names none.
const UTC: &str = "Etc/UTC";

/// The words that say what is asked of a filter.
pub const QUESTIONS: [&str; 3] = ["read", "window", "time"];

/// What comes of a filter, or without a question of an object with a filter and an event. None where it can't be read.
pub fn came(
    alloc: Global,
    zones: &Zones,
    question: &str,
    value: Tree,
) -> Result<Option<Tree>, AllocError> {
    match question {
        "read" => Ok(Some(read(alloc, &value)?)),
        "window" => Ok(Some(window(alloc, &value)?)),
        "time" => Ok(Some(has_time(alloc, &value)?)),
        "" => holds(alloc, zones, value),
        _ => Ok(None),
    }
}

/// `filter`, or why it is none.
fn read(alloc: Global, tree: &Tree) -> Result<Tree, AllocError> {
    match Filter::read(tree) {
        Ok(_) => word(alloc, "filter"),
        Err(error) => reason(alloc, error),
    }
}

fn reason(alloc: Global, error: FilterError) -> Result<Tree, AllocError> {
    match error {
        FilterError::Bad => word(alloc, "bad"),
        FilterError::Unsupported => word(alloc, "unsupported"),
        FilterError::NoMemory => Err(AllocError),
    }
}

/// The times of a filter that is one condition with both, else null.
fn window(alloc: Global, tree: &Tree) -> Result<Tree, AllocError> {
    match Filter::read(tree) {
        Ok(filter) => match filter.window() {
            Some((after, before)) => {
                let times = vec![in alloc; local_time(alloc, after)?, local_time(alloc, before)?]?;
                Ok(Tree::List(TreeList::new(times)))
            }
            None => Ok(Tree::Null),
        },
        Err(error) => reason(alloc, error),
    }
}

/// Whether the filter asks when an event is.
fn has_time(alloc: Global, tree: &Tree) -> Result<Tree, AllocError> {
    match Filter::read(tree) {
        Ok(filter) => Ok(Tree::Truth(filter.has_time())),
        Err(error) => reason(alloc, error),
    }
}

/// Whether the `filter` holds of the plain event over which the members of `event` are laid, where the query's zone is `zone`. None
/// where one of them can't be read.
fn holds(alloc: Global, zones: &Zones, row: Tree) -> Result<Option<Tree>, AllocError> {
    let zone = match row.text_at("zone") {
        Some(zone) => zone.copy()?,
        None => Text::from_str(alloc, UTC)?,
    };
    let filter = match row.get("filter") {
        Some(filter) => Filter::read(filter),
        None => return Ok(None),
    };
    let Some(members) = row.into_value("event") else {
        return Ok(None);
    };
    let Some(event) = over_plain(alloc, members)? else {
        return Ok(None);
    };
    match filter {
        Ok(filter) => filter_holds(alloc, zones, &zone, filter, &event),
        Err(error) => Ok(Some(reason(alloc, error)?)),
    }
}

fn filter_holds(
    alloc: Global,
    zones: &Zones,
    zone: &Text,
    filter: Filter,
    event: &Tree,
) -> Result<Option<Tree>, AllocError> {
    let Some(clock) = rule_of(zones, zone) else {
        return Ok(None);
    };
    let Some(series) = read_series(alloc, event, zones)? else {
        return Ok(None);
    };
    let rule = rule_of_event(zones, zone, event);
    let has_time = filter.has_time();
    let filter = filter.in_zone(alloc, clock)?;
    let holds = if has_time {
        filter.matches(alloc, event, Some(&series), rule.as_ref())?
    } else {
        filter.matches(alloc, event, None, None)?
    };
    Ok(Some(Tree::Truth(holds)))
}
