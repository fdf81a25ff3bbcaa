//! Events whose occurrences are results.
ghost use Rattle.std.specs.Prelude.{◌≡◌, codes};
ghost use Rattle.expanded_query.specs.OwnTitles.{NamesOverrides};
ghost use Rattle.spec_events.specs.Events.{has_recurrence};
ghost use Rattle.spec_json.specs.TreeData.{data_of};
ghost use Rattle.spec_queries.specs.Items.{text_or_empty, utc_moment};

use jiff_tz::posix::TimeZone;
use query_methods::item::utc_moment;
use single_event::recurrence::has_recurrence;
use spec_json::tree::Tree;
use spec_series::series::Series;

/// An event whose occurrences are results, with what comparators see of each of them: its texts are borrowed, so that no occurrence
/// holds any.
#[derive(Drop)]
pub(crate) struct Source<'a> {
    /// The number of the event.
    pub(crate) number: u64,
    pub(crate) event: &'a Tree,
    pub(crate) series: &'a Series,
    /// The rule of its zone.
    pub(crate) rule: TimeZone,
    pub(crate) uid: &'a str,
    pub(crate) title: &'a str,
    pub(crate) created: i64,
    pub(crate) updated: i64,
    /// Whether it has rules or overrides, so that its occurrences have synthetic ids.
    pub(crate) recurs: bool,
    ghost uid_is: { uid.now ≡ text_or_empty (codes "uid") (data_of event.now) },
    ghost title_is: { title.now ≡ text_or_empty (codes "title") (data_of event.now) },
    ghost created_is: { created ≡ utc_moment (codes "created") (data_of event.now) },
    ghost updated_is: { updated ≡ utc_moment (codes "updated") (data_of event.now) },
    ghost recurs_is: { recurs ≡ has_recurrence (data_of event.now) },
    ghost names: { NamesOverrides series.now (data_of event.now) },
}

impl<'a> Source<'a> {
    /// An event, its series, and the rule of its zone. Takes no memory.
    pub(crate) fn new(
        number: u64,
        event: &'a Tree,
        series: &'a Series,
        rule: TimeZone,
    ) -> Source<'a>
        requires { NamesOverrides series.now (data_of event.now) }
        ensures number { result.number ≡ number }
        ensures event { result.event.now ≡ event.now }
        ensures series { result.series.now ≡ series.now }
        ensures rule { result.rule ≡ rule }
    {
        Source {
            number,
            event,
            series,
            rule,
            uid: text_at(event, "uid"),
            title: text_at(event, "title"),
            created: utc_moment(event, "created"),
            updated: utc_moment(event, "updated"),
            recurs: has_recurrence(event),
        }
    }
}

// The text at a key of an event, empty where there is none.
fn text_at<'a>(event: &'a Tree, key: &str) -> &'a str
    ensures { result.now ≡ text_or_empty key.now (data_of event.now) }
{
    match event.text_at(key) {
        Some(text) => text.as_str(),
        None => "",
    }
}
