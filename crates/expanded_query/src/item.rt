//! What comparators see of an occurrence that may differ from what they see of its event.
ghost use Rattle.std.specs.Prelude.{◌≡◌, IfOk, codes, true, unwrap_or, pos};
ghost use Rattle.std.specs.List.{list_all};
ghost use Rattle.expanded_query.specs.OwnTitles.{is_plain_name, title_by, title_or};
ghost use Rattle.jiff_tz.specs.PosixText.{tz_view};
ghost use Rattle.spec_json.specs.Parts.{members_in};
ghost use Rattle.spec_json.specs.Data.{Data, lookup};
ghost use Rattle.spec_json.specs.TreeData.{data_of};
ghost use Rattle.spec_queries.specs.Expanded.{title_at, title_in};
ghost use Rattle.spec_recurrence.specs.Overrides.{occurrence_in};
ghost use Rattle.spec_time.specs.LocalTimes.{local_text};
ghost use Rattle.spec_time.specs.Walls.{is_in_years};
ghost use Rattle.spec_windows.specs.Clocks.{instant_in};

use crate::source::Source;
use event_model::occurrence::override_at;
use jiff_tz::posix::TimeZone;
use overrides::occurrence::occurrence_tree;
use query_methods::item::text_or_empty;
use spec_json::text::Text;
use spec_json::tree::{Member, Tree, TreeObject};
use spec_time::wall::Wall;
use std::alloc::{AllocError, Global};
use time_text::local_text;
use zone_instants::instant;

/// The moment at which an occurrence starts whose event's zone has this rule, in seconds of UTC from 1970. Takes no memory.
pub(crate) fn start_instant(rule: &TimeZone, start: Wall) -> i64
    ensures { result ≡ unwrap_or (instant_in (tz_view rule.now) start) (pos 0) }
{
    match instant(rule, start) {
        Some(start) => start,
        None => 0,
    }
}

/// The title of the occurrence with a recurrence id, where its override gives it one; else it has that of the event. Takes memory for it.
pub(crate) fn own_title(
    alloc: Global,
    source: &Source<'_>,
    rid: Wall,
) -> Result<Option<Box<Text>>, AllocError>
    requires { is_in_years rid ≡ true }
    ensures { IfOk result (λ own. title_or (data_of source.now.event.now) own ≡ title_at (local_text rid) (data_of source.now.event.now)) }
{
    if !source.series.exceptions.names(rid.seconds()) {
        return Ok(None);
    }
    let key = local_text(alloc, rid)?;
    own_title_at(alloc, source.event, &key)
}

// The same by the LocalDateTime of the recurrence id.
#[tactic(auto, using(crate::proofs::TitleLemmas::own_title, crate::proofs::TitleLemmas::title_patched))]
fn own_title_at(alloc: Global, event: &Tree, key: &Text) -> Result<Option<Box<Text>>, AllocError>
    ensures { IfOk result (λ own. title_or (data_of event.now) own ≡ title_at key.now (data_of event.now)) }
{
    match override_at(event, key) {
        Some(patch) => patched_title(alloc, event, key, patch),
        None => Ok(None),
    }
}

// Most patches name properties alone. Such a one tells the title itself; of another the object of the occurrence is made.
fn patched_title(
    alloc: Global,
    event: &Tree,
    key: &Text,
    patch: &TreeObject,
) -> Result<Option<Box<Text>>, AllocError>
    ensures { IfOk result (λ own. title_or (data_of event.now) own ≡ title_in (occurrence_in (members_in (data_of event.now)) key.now patch.now)) }
{
    let _ordered = event.members_in();
    if are_names(patch.members()) {
        return named_title(alloc, patch);
    }
    let title = made_title(alloc, event, key, patch)?;
    Ok(Some(Box::new(alloc, title)?))
}

// Whether each key is a name: ASCII, without what parts a pointer or stands for something else in it.
fn are_names(members: &[Member]) -> bool
    ensures { result ≡ list_all (λ member. is_plain_name member.key) members.now }
{
    members
        .iter()
        .all(|member| is_plain_name(member.key.as_str().as_bytes()))
}

fn is_plain_name(key: &[u8]) -> bool
    ensures { result ≡ is_plain_name key.now }
{
    key.iter().all(|b| *b < 128 && *b != b'/' && *b != b'~')
}

// The title that a patch gives itself.
fn named_title(alloc: Global, patch: &TreeObject) -> Result<Option<Box<Text>>, AllocError>
    ensures { IfOk result (λ own. (event : Data) → title_or event own ≡ title_by (lookup (codes "title") patch.now) event) }
{
    let title = match patch.get("title") {
        Some(Tree::Text(title)) => title.copy()?,
        Some(_) => Text::from_str(alloc, "")?,
        None => return Ok(None),
    };
    Ok(Some(Box::new(alloc, title)?))
}

fn made_title(
    alloc: Global,
    event: &Tree,
    key: &Text,
    patch: &TreeObject,
) -> Result<Text, AllocError>
    ensures { IfOk result (λ title. title ≡ title_in (occurrence_in (members_in (data_of event.now)) key.now patch.now)) }
{
    match occurrence_tree(alloc, event, key, patch)? {
        Some(object) => text_or_empty(alloc, &object, "title"),
        None => Text::from_str(alloc, ""),
    }
}
