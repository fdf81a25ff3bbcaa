//! The occurrences of events that overlap a window.
ghost use Rattle.std.specs.Prelude.{◌≡◌, ◌++◌, All, IfOk, OnOk, flat_map, map, true};
ghost use Rattle.expanded_query.specs.Founds.{found_result, given_by};
ghost use Rattle.jiff_tz.specs.PosixText.{tz_view};
ghost use Rattle.occurrence_windows.specs.Bounds.{AreNear};
ghost use Rattle.spec_json.specs.TreeData.{data_of};
ghost use Rattle.spec_queries.specs.Expanded.{occurrence_result};
ghost use Rattle.spec_time.specs.Walls.{is_in_years};
ghost use Rattle.spec_windows.specs.Clocks.{instant_in};

use crate::found_occurrence::FoundOccurrence;
use crate::occurrences::occurrences_overlapping;
use crate::source::Source;
use spec_series::occurrence::Occurrence;
use spec_windows::window::Window;
use std::alloc::{AllocError, Global};

/// The occurrences of events that overlap a window, those of each event by their recurrence ids. Takes memory for the list.
pub(crate) fn all_found<'a>(
    alloc: Global,
    sources: &'a [Source<'a>],
    window: Window,
) -> Result<Vec<FoundOccurrence<'a>>, AllocError>
    requires { AreNear window }
    ensures { IfOk result (λ v. map found_result v.items ≡ flat_map (given_by window) sources.now) }
{
    let mut found = Vec::new(alloc);
    for source in sources {
        let occurrences = occurrences_overlapping(alloc, source.series, &source.rule, window)?;
        add_occurrences(alloc, source, &occurrences, &mut found)?;
    }
    Ok(found)
}

fn add_occurrences<'a>(
    alloc: Global,
    source: &'a Source<'a>,
    occurrences: &[Occurrence],
    found: &mut Vec<FoundOccurrence<'a>>,
) -> Result<(), AllocError>
    requires { All (λ o. is_in_years o.rid ≡ true) occurrences.now }
    ensures { OnOk result (map found_result found.new.items ≡ map found_result found.old.items ++ map (occurrence_result (instant_in (tz_view source.now.rule)) source.now.number (data_of source.now.event.now)) occurrences.now) }
{
    for occurrence in occurrences {
        found.push(FoundOccurrence::new(alloc, source, occurrence)?)?;
    }
    Ok(())
}
