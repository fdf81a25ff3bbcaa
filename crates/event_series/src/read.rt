//! Reads the series of an event.
ghost use Rattle.std.specs.Prelude.{◌≡◌, [], IfErr, IfOk, Some};
ghost use Rattle.event_series.specs.EventSeries.{IsSeriesOf};
ghost use Rattle.single_event.specs.Reports.{Reports};
ghost use Rattle.spec_json.specs.TreeData.{data_of};
ghost use Rattle.spec_recurrence.specs.Recurrence.{bad_properties_of_event};
ghost use Rattle.spec_recurrence.specs.SeriesOf.{series_in};

use crate::exceptions::exceptions_of;
use crate::length::length_of;
use event_model::names::bad_event_names;
use event_model::rules::rules_of_event;
use single_event::parts::{is_occupying, start_of};
use single_event::read::EventError;
use spec_json::lists::Texts;
use spec_json::tree::Tree;
use spec_series::series::Series;
use std::alloc::{AllocError, Global};
use zone_table::Zones;

/// Reads an object to the series of the event that it is (RFC 8984 section 4.3). `BadEvent` names all properties that are bad.
///
/// What overrides make of the event is looked at twice: in the test of its properties, and for the series. Takes memory for the series,
/// for the names of bad properties, and for the parts of the event that overrides look at.
pub fn read_event(alloc: Global, tree: &Tree, zones: &Zones) -> Result<Series, EventError>
    ensures value { IfOk result (λ s. series_in zones.now (data_of tree.now) ≡ Some s) }
    ensures err { IfErr result (λ error. Reports error (bad_properties_of_event zones.now (data_of tree.now))) }
{
    let names = bad_event_names(alloc, tree, zones)?;
    if !names.is_empty() {
        return Err(EventError::BadEvent {
            properties: Texts::new(names),
        });
    }
    Ok(series_of(alloc, tree, zones)?)
}

/// Reads the series of an event, as `read_event` does. None where a property is bad.
#[tactic(auto, using(crate::proofs::SeriesLemmas::no_series))]
pub fn read_series(alloc: Global, tree: &Tree, zones: &Zones) -> Result<Option<Series>, AllocError>
    ensures { IfOk result (λ s. s ≡ series_in zones.now (data_of tree.now)) }
{
    match read_event(alloc, tree, zones) {
        Ok(series) => Ok(Some(series)),
        Err(EventError::BadEvent { .. }) => Ok(None),
        Err(EventError::NoMemory) => Err(AllocError),
    }
}

// The series of an event that has no bad properties. Takes memory for the series, and for the parts of the event that overrides look at.
fn series_of(alloc: Global, event: &Tree, zones: &Zones) -> Result<Series, AllocError>
    requires { bad_properties_of_event zones.now (data_of event.now) ≡ [] }
    ensures value { IfOk result (λ s. series_in zones.now (data_of event.now) ≡ Some s) }
    ensures parts { IfOk result (λ s. IsSeriesOf zones.now (data_of event.now) s) }
{
    let rules = rules_of_event(alloc, event)?;
    let exceptions = exceptions_of(alloc, event, zones)?;
    Ok(Series {
        start: start_of(event),
        length: length_of(event, zones),
        occupying: is_occupying(event),
        rules,
        exceptions,
    })
}
