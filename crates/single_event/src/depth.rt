//! How deep a value nests.
ghost use Rattle.std.specs.Prelude.{◌≡◌};
ghost use Rattle.spec_events.specs.Values.{is_shallow};
ghost use Rattle.spec_json.specs.TreeData.{data_of};

use spec_events::limits::MAX_DEPTH;
use spec_json::tree::Tree;
use spec_json::tree::depth::nests_within;

/// Whether a value nests as deep as one of an event may, and not deeper.
pub fn is_shallow(value: &Tree) -> bool
    ensures { result ≡ is_shallow (data_of value.now) }
{
    nests_within(value, MAX_DEPTH)
}
