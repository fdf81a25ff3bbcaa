//! An event as its overrides are tested by it.
ghost use Rattle.std.specs.Prelude.{◌≡◌, IfOk};
ghost use Rattle.spec_json.specs.Parts.{members_in};
ghost use Rattle.spec_json.specs.TreeData.{data_of};
ghost use Rattle.spec_recurrence.specs.Overrides.{single};
ghost use Rattle.overrides.specs.Alone.{IsTested};

use crate::occurrence::single;
use crate::part::always_part;
use single_event::read::bad_event_names;
use spec_json::text::Text;
use spec_json::tree::{Tree, TreeObject};
use std::alloc::{AllocError, Global};
use zone_table::Zones;

/// An event without its rules and overrides, and what is found of it once for all overrides.
#[derive(Drop)]
pub(crate) struct Alone {
    pub(crate) event: Tree,
    /// The properties of it that are bad.
    pub(crate) bad: Vec<Text>,
    /// The members of it that are needed whatever a patch changes.
    pub(crate) needed: TreeObject,
}

impl Alone {
    /// Takes memory for a copy of the event.
    pub(crate) fn of(alloc: Global, event: &Tree, zones: &Zones) -> Result<Alone, AllocError>
        ensures event { IfOk result (λ alone. members_in (data_of alone.event) ≡ single (members_in (data_of event.now))) }
        ensures tested { IfOk result (λ alone. IsTested alone zones.now) }
    {
        let event = single(alloc, event)?;
        let bad = bad_event_names(alloc, &event, zones)?;
        let needed = always_part(alloc, &event)?;
        Ok(Alone { event, bad, needed })
    }
}
