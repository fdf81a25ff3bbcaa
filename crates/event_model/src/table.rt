//! The table of the properties of an event that may recur.
ghost use Rattle.std.specs.Prelude.{◌≡◌, Some, IfOk, is_some};
ghost use Rattle.spec_json.specs.TreeData.{data_of};
ghost use Rattle.spec_events.specs.Events.{event_table};
ghost use Rattle.spec_recurrence.specs.Overrides.{exceptions_in};
ghost use Rattle.spec_recurrence.specs.Recurrence.{are_overrides, are_rules, recurring_event_table};
ghost use Rattle.property_table.specs.Table.{test_at};

use overrides::exceptions::{OverrideError, exceptions};
use property_table::table::PropertyTable;
use rule_read::{RulesError, read_rules};
use single_event::depth::is_shallow;
use single_event::parts::start_of;
use single_event::table::EventTable;
use spec_json::tree::Tree;
use std::alloc::{AllocError, Global};
use zone_table::Zones;

/// The properties of an event with its rules and overrides, where these time zones are known.
#[derive(Clone, Copy)]
pub(crate) struct RecurringEventTable<'a> {
    pub alloc: Global,
    pub zones: &'a Zones,
    pub event: &'a Tree,
}

impl PropertyTable for RecurringEventTable<'_> {
    ghost use Rattle.spec_json.specs.TreeData.{data_of};
    ghost use Rattle.spec_events.specs.Events.{event_table};
    ghost use Rattle.spec_recurrence.specs.Recurrence.{recurring_event_table};

    ghost table = { λ t. recurring_event_table t.zones.now (data_of t.event.now) };

    fn passes(&self, name: &str, value: &Tree) -> Result<bool, AllocError> {
        passes(self.alloc, self.zones, self.event, name, value)
    }

    #[tactic(auto, unfolding(spec_recurrence::specs::Recurrence::recurring_event_table, spec_events::specs::Events::event_table))]
    fn required_names(&self) -> &'static [&'static str] {
        &["uid", "calendarIds", "start"]
    }
}

#[tactic(auto, unfolding(spec_recurrence::specs::Recurrence::recurring_event_table))]
fn passes(
    alloc: Global,
    zones: &Zones,
    event: &Tree,
    name: &str,
    value: &Tree,
) -> Result<bool, AllocError>
    ensures { IfOk result (λ b. b ≡ test_at (recurring_event_table zones.now (data_of event.now)) name.now (Some (data_of value.now))) }
{
    match name {
        "recurrenceRules" => are_rules(alloc, event, value),
        "recurrenceOverrides" => are_overrides(alloc, zones, event, value),
        _ => passes_alone(alloc, zones, name, value),
    }
}

// The test of an event by itself.
fn passes_alone(alloc: Global, zones: &Zones, name: &str, value: &Tree) -> Result<bool, AllocError>
    ensures { IfOk result (λ b. b ≡ test_at (event_table zones.now) name.now (Some (data_of value.now))) }
{
    EventTable { alloc, zones }.passes(name, value)
}

fn are_rules(alloc: Global, event: &Tree, rules: &Tree) -> Result<bool, AllocError>
    ensures { IfOk result (λ b. b ≡ are_rules (data_of event.now) (data_of rules.now)) }
{
    match read_rules(alloc, rules, start_of(event)) {
        Ok(_) => Ok(true),
        Err(RulesError::BadRules) => Ok(false),
        Err(RulesError::NoMemory) => Err(AllocError),
    }
}

fn are_overrides(
    alloc: Global,
    zones: &Zones,
    event: &Tree,
    overrides: &Tree,
) -> Result<bool, AllocError>
    ensures { IfOk result (λ b. b ≡ are_overrides zones.now (data_of event.now) (data_of overrides.now)) }
{
    if !is_shallow(overrides) {
        return Ok(false);
    }
    may_have_overrides(alloc, zones, event)
}

fn may_have_overrides(alloc: Global, zones: &Zones, event: &Tree) -> Result<bool, AllocError>
    ensures { IfOk result (λ b. b ≡ is_some (exceptions_in zones.now (data_of event.now))) }
{
    match exceptions(alloc, event, zones) {
        Ok(_) => Ok(true),
        Err(OverrideError::BadOverrides) => Ok(false),
        Err(OverrideError::BadOverride { .. }) => Ok(false),
        Err(OverrideError::NoMemory) => Err(AllocError),
    }
}
