//! What is looked for in a filter.
ghost use Rattle.std.specs.Prelude.{◌≡◌, Some, None, map};
ghost use Rattle.spec_filters.specs.Filters.{asks_time, is_found, meaning_of, said, some_true};
ghost use Rattle.spec_json.specs.Data.{members_of, object};
ghost use Rattle.spec_json.specs.TreeData.{data_of};
ghost use Rattle.query_filter.specs.SoughtKinds.{sought_of};

use crate::conditions::conditions_of;
use crate::members::{CONDITION_NAMES, OPERATOR_NAMES, given, has_bad_member, has_other_than};
use property_table::values::is_text;
use spec_filters::operator::is_operator;
use spec_json::tree::{Tree, TreeObject};

/// What is looked for in a filter and in the conditions of its operators.
#[derive(Clone, Copy, Debug, PartialEq, Eq, Drop)]
pub(crate) enum SoughtKind {
    /// What makes a filter bad.
    Fault,
    /// A member or an operator that isn't known.
    Unknown,
    /// A condition that asks when an event is.
    Time,
}

impl SoughtKind {
    // In what is no filter.
    fn is_in_other(self) -> bool
        ensures { result ≡ (sought_of self).other }
    {
        match self {
            SoughtKind::Fault => true,
            SoughtKind::Unknown | SoughtKind::Time => false,
        }
    }

    fn is_in_condition(self, condition: &TreeObject) -> bool
        ensures { result ≡ (sought_of self).condition condition.now }
    {
        match self {
            SoughtKind::Fault => has_bad_member(condition),
            SoughtKind::Unknown => has_other_than(&CONDITION_NAMES, condition),
            SoughtKind::Time => asks_time(condition),
        }
    }

    fn is_in_operator(self, operator: &Tree, object: &TreeObject) -> bool
        ensures { result ≡ (sought_of self).operator (data_of operator.now) object.now }
    {
        match self {
            SoughtKind::Fault => !is_text(operator),
            SoughtKind::Unknown => {
                !is_operator(operator) || has_other_than(&OPERATOR_NAMES, object)
            }
            SoughtKind::Time => false,
        }
    }

    // In an operator without a list of conditions.
    fn is_in_unlisted(self) -> bool
        ensures { result ≡ (sought_of self).unlisted }
    {
        match self {
            SoughtKind::Fault => true,
            SoughtKind::Unknown | SoughtKind::Time => false,
        }
    }

    /// Whether a filter has it. Takes no memory.
    #[cycle(sought)]
    pub(crate) fn is_found(self, tree: &Tree) -> bool
        ensures { result ≡ is_found (sought_of self) (data_of tree.now) }
    {
        match tree {
            Tree::Object(object) => self.is_found_in(object),
            _ => self.is_in_other(),
        }
    }

    #[cycle(sought)]
    fn is_found_in(self, filter: &TreeObject) -> bool
        ensures { result ≡ is_found (sought_of self) (object (members_of filter.now)) }
    {
        match given(filter, "operator") {
            None => self.is_in_condition(filter),
            Some(operator) => {
                if self.is_in_operator(operator, filter) {
                    return true;
                }
                match conditions_of(filter) {
                    None => self.is_in_unlisted(),
                    Some(conditions) => self.is_found_among(conditions),
                }
            }
        }
    }

    #[cycle(sought)]
    #[tactic(auto, using(spec_json::specs::TreeDepth::item_falls))]
    fn is_found_among(self, filters: &[Tree]) -> bool
        ensures { result ≡ some_true (map (said (meaning_of (sought_of self))) (map data_of filters.now)) }
    {
        for filter in filters {
            if self.is_found(filter) {
                return true;
            }
        }
        false
    }
}

/// Whether a condition asks when an event is. Takes no memory.
pub(crate) fn asks_time(condition: &TreeObject) -> bool
    ensures { result ≡ asks_time condition.now }
{
    condition.text_at("after").is_some() || condition.text_at("before").is_some()
}
