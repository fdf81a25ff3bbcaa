//! Filters that were read.
ghost use Rattle.std.specs.Prelude.{◌≡◌, None, codes, false, is_some, if◌then◌else◌};
ghost use Rattle.spec_filters.specs.Filters.{has_time};
ghost use Rattle.spec_filters.specs.Matches.{wall_given, walls_asked, window_asked};
ghost use Rattle.spec_filters.specs.Members.{given_at};
ghost use Rattle.spec_json.specs.TreeData.{data_of};
ghost use Rattle.query_filter.specs.AnyTime.{IsForAnyTime};
ghost use Rattle.query_filter.specs.ReadFilters.{IsRead};
ghost use Rattle.query_filter.specs.declared.filter.FilterError.TheVariants.{NoMemory};

use crate::members::given;
use crate::parts::has_too_many_parts;
use crate::sought::SoughtKind;
use spec_json::tree::{Tree, TreeObject};
use spec_time::wall::Wall;
use std::alloc::AllocError;
use std::marker::Model;
use time_text::read_local;

/// Why there is no filter.
#[derive(Clone, Copy, Debug, PartialEq, Eq, Drop)]
pub enum FilterError {
    /// It is no object, a known member has a value of a wrong kind, or an operator lacks its conditions, somewhere in it.
    Bad,
    /// It isn't bad, and has an unknown member or operator, or more operators and conditions than it may have.
    Unsupported,
    /// There was no memory.
    NoMemory,
}

impl From<AllocError> for FilterError {
    ghost from_gives = { λ _ error. error ≡ NoMemory };

    fn from(_: AllocError) -> Self {
        FilterError::NoMemory
    }
}

/// A filter of events (RFC 8620 section 5.5), neither bad nor unsupported. Contracts see its JSON value.
#[derive(Drop)]
pub struct Filter {
    pub(crate) tree: Tree,
}

impl Model for Filter {
    ghost use Rattle.spec_json.specs.Data.{Data};
    ghost use Rattle.spec_json.specs.DataCode.{data_code};
    ghost use Rattle.spec_json.specs.TreeData.{data_of};

    ghost Value = { Data };

    ghost coded = { data_code };

    ghost view = { λ a. data_of a.tree };
}

impl Filter {
    /// Reads a filter. `Bad` comes before `Unsupported`. Takes memory for a copy.
    pub fn read(tree: &Tree) -> Result<Filter, FilterError>
        ensures { IsRead (data_of tree.now) result }
    {
        if SoughtKind::Fault.is_found(tree) {
            return Err(FilterError::Bad);
        }
        if SoughtKind::Unknown.is_found(tree) || has_too_many_parts(tree) {
            return Err(FilterError::Unsupported);
        }
        Ok(Filter { tree: tree.copy()? })
    }

    /// Whether some condition asks when an event is. Where none does, neither its series nor the rule of its zone matters. Takes no
    /// memory.
    #[tactic(auto, using(crate::proofs::TimeLemmas::without_time))]
    pub fn has_time(&self) -> bool
        ensures value { result ≡ has_time self.now }
        ensures without { result ≡ false → IsForAnyTime self.now }
    {
        SoughtKind::Time.is_found(&self.tree)
    }

    /// The wall seconds of `after` and `before`, where the filter is one condition with both. Takes no memory.
    #[tactic(auto, using(spec_json::specs::Data::pairs_back))]
    pub fn window(&self) -> Option<(Wall, Wall)>
        ensures { result ≡ window_asked self.now }
    {
        match &self.tree {
            Tree::Object(object) => walls_of_condition(object),
            _ => None,
        }
    }
}

fn walls_of_condition(object: &TreeObject) -> Option<(Wall, Wall)>
    ensures { result ≡ (if is_some (given_at (codes "operator") object.now) then None else walls_asked object.now) }
{
    if given(object, "operator").is_some() {
        None
    } else {
        walls_asked(object)
    }
}

fn walls_asked(condition: &TreeObject) -> Option<(Wall, Wall)>
    ensures { result ≡ walls_asked condition.now }
{
    let after = wall_given(condition, "after")?;
    let before = wall_given(condition, "before")?;
    Some((after, before))
}

/// The wall second of the LocalDateTime of a member. Takes no memory.
fn wall_given(condition: &TreeObject, key: &str) -> Option<Wall>
    ensures { result ≡ wall_given key.now condition.now }
{
    read_local(condition.text_at(key)?.as_str().as_bytes())
}
