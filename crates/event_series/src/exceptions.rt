//! The exceptions that the overrides of an event come to.
ghost use Rattle.std.specs.Prelude.{◌≡◌, ◌≤◌, [], Some, IfOk, codes, length, map, true, unwrap_or};
ghost use Rattle.spec_json.specs.ObjectKeys.{HasOrderedKeys};
ghost use Rattle.spec_json.specs.Parts.{object_at};
ghost use Rattle.spec_json.specs.TreeData.{data_of, pair_of};
ghost use Rattle.spec_recurrence.specs.Overrides.{exceptions_in};
ghost use Rattle.spec_recurrence.specs.Recurrence.{bad_properties_of_event};
ghost use Rattle.overrides.specs.declared.exceptions.OverrideError.TheVariants.{NoMemory};
ghost use Rattle.spec_series.specs.SeriesLimits.{are_distinct, are_in_years, are_short};

use overrides::exceptions::{OverrideError, exceptions};
use spec_json::tree::{Member, Tree};
use spec_series::exception::Exceptions;
use std::alloc::{AllocError, Global};
use zone_table::Zones;

/// The exceptions of an event that has no bad properties.
#[tactic(auto, using(crate::proofs::ExceptionLemmas::only_memory))]
pub(crate) fn exceptions_of(
    alloc: Global,
    event: &Tree,
    zones: &Zones,
) -> Result<Exceptions, AllocError>
    requires { bad_properties_of_event zones.now (data_of event.now) ≡ [] }
    ensures value { IfOk result (λ xs. exceptions_in zones.now (data_of event.now) ≡ Some xs) }
    ensures few { IfOk result (λ xs. length xs ≤ 128) }
    ensures years { IfOk result (λ xs. are_in_years xs ≡ true) }
    ensures short { IfOk result (λ xs. are_short xs ≡ true) }
    ensures distinct { IfOk result (λ xs. are_distinct xs ≡ true) }
{
    let _ordered = overrides_of(event);
    match exceptions(alloc, event, zones) {
        Ok(exceptions) => Ok(exceptions),
        Err(error) => Err(want_of_memory(error)),
    }
}

fn want_of_memory(error: OverrideError) -> AllocError
    requires { error ≡ NoMemory }
{
    match error {
        OverrideError::NoMemory => AllocError,
        _ => unreachable!(),
    }
}

// The overrides of an event.
fn overrides_of(event: &Tree) -> &[Member]
    ensures value { map pair_of result.now ≡ unwrap_or (object_at (codes "recurrenceOverrides") (data_of event.now)) [] }
    ensures ordered { HasOrderedKeys (unwrap_or (object_at (codes "recurrenceOverrides") (data_of event.now)) []) }
{
    match event.object_at("recurrenceOverrides") {
        Some(overrides) => overrides.members(),
        None => &[],
    }
}
