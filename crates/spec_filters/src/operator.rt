//! The names of operators.
ghost use Rattle.std.specs.Prelude.{◌≡◌};
ghost use Rattle.spec_filters.specs.Members.{is_operator};
ghost use Rattle.spec_json.specs.TreeData.{data_of};

use spec_events::values::is_one_of;
use spec_json::tree::Tree;

/// Whether a value is the name of an operator (RFC 8620 section 5.5). Takes no memory.
pub fn is_operator(value: &Tree) -> bool
    ensures { result ≡ is_operator (data_of value.now) }
{
    is_one_of(value, &["AND", "OR", "NOT"])
}
