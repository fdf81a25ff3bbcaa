//! Occurrences that were found.
ghost use Rattle.std.specs.Prelude.{◌≡◌, true};
ghost use Rattle.spec_time.specs.Walls.{is_in_years};

use crate::id::result_id;
use crate::item::{own_title, start_instant};
use crate::source::Source;
use spec_json::text::Text;
use spec_series::occurrence::Occurrence;
use spec_time::wall::Wall;
use std::alloc::{AllocError, Global};

/// An occurrence in a result. Of what comparators see of it this holds what may differ from its event, and its id is made when it is told,
/// since there may be many of which few are told.
#[derive(Drop)]
pub(crate) struct FoundOccurrence<'a> {
    /// The event.
    pub(crate) source: &'a Source<'a>,
    /// The recurrence id.
    pub(crate) rid: Wall,
    /// The moment at which it starts, in seconds of UTC from 1970.
    pub(crate) start: i64,
    // its own title, where an override names the occurrence
    title: Option<Box<Text>>,
    ghost years: { is_in_years rid ≡ true },
}

impl<'a> FoundOccurrence<'a> {
    ghost use Rattle.std.specs.Prelude.{◌≢◌, IfOk, Some, false};
    ghost use Rattle.std.specs.Str.{bytes_eq};
    ghost use Rattle.expanded_query.specs.Founds.{found_result, id_of, title_of};
    ghost use Rattle.jiff_tz.specs.PosixText.{tz_view};
    ghost use Rattle.spec_json.specs.TreeData.{data_of};
    ghost use Rattle.spec_queries.specs.Expanded.{occurrence_result};
    ghost use Rattle.spec_recurrence.specs.OccurrenceIds.{occurrence_id_in};
    ghost use Rattle.spec_windows.specs.Clocks.{instant_in};

    /// An occurrence of an event. Takes memory where an override names it.
    pub(crate) fn new(
        alloc: Global,
        source: &'a Source<'a>,
        occurrence: &Occurrence,
    ) -> Result<FoundOccurrence<'a>, AllocError>
        requires { is_in_years occurrence.now.rid ≡ true }
        ensures { IfOk result (λ found. found_result found ≡ occurrence_result (instant_in (tz_view source.now.rule)) source.now.number (data_of source.now.event.now) occurrence.now) }
    {
        let title = own_title(alloc, source, occurrence.rid)?;
        Ok(FoundOccurrence {
            source,
            rid: occurrence.rid,
            start: start_instant(&source.rule, occurrence.start),
            title,
        })
    }

    /// The title. Takes no memory.
    pub(crate) fn title(&self) -> &str
        ensures { result.now ≡ title_of self.now }
    {
        match &self.title {
            Some(title) => title.as_str(),
            None => self.source.title,
        }
    }

    /// The id of the result. Takes memory for it.
    pub(crate) fn id(&self, alloc: Global) -> Result<Text, AllocError>
        ensures { IfOk result (λ id. id ≡ id_of self.now) }
    {
        result_id(alloc, self.source.number, self.source.event, self.rid)
    }

    /// Whether the result has this id, which names this occurrence where it names one. Takes memory for its own, where that may be the same.
    #[tactic(auto, using(crate::proofs::IdLemmas::another_id))]
    pub(crate) fn has_id(
        &self,
        alloc: Global,
        id: &Text,
        named: &Option<(u64, Wall)>,
    ) -> Result<bool, AllocError>
        requires { named.now ≡ occurrence_id_in id.now }
        ensures { IfOk result (λ b. b ≡ bytes_eq id.now (id_of self.now)) }
    {
        if self.source.recurs && self.source.number > 0 && !self.is_named(named) {
            return Ok(false);
        }
        let own = self.id(alloc)?;
        Ok(id.as_str() == own.as_str())
    }

    // Whether an occurrence of this number and recurrence id is this one.
    fn is_named(&self, named: &Option<(u64, Wall)>) -> bool
        ensures { result ≡ false → named.now ≢ Some (self.now.source.now.number, self.now.rid) }
    {
        match named {
            Some((number, rid)) => {
                *number == self.source.number && rid.seconds() == self.rid.seconds()
            }
            None => false,
        }
    }
}
