//! When an event has to be for a filter that is one condition.
ghost use Rattle.std.specs.Prelude.{◌≡◌, IfOk, IfSome, Some};
ghost use Rattle.spec_filters.specs.Filters.{holds};
ghost use Rattle.spec_json.specs.Parts.{members_in};
ghost use Rattle.spec_json.specs.TreeData.{data_of};
ghost use Rattle.occurrence_windows.specs.Bounds.{AreNear};
ghost use Rattle.query_filter.specs.EventTests.{event_meets};
ghost use Rattle.query_filter.specs.KeptTimes.{condition_times, object_times, others_meet, times_of};

use crate::clock::Clock;
use crate::condition::{EventTest, instants_asked};
use crate::members::{TIME_NAMES, given, has_other_than};
use crate::sought::asks_time;
use spec_json::tree::{Tree, TreeObject};
use spec_windows::window::Window;
use std::alloc::AllocError;

/// The times of a condition that asks when an event is.
#[derive(Clone, Copy)]
pub(crate) struct Times {
    /// The window between the instants of `after` and `before`.
    pub(crate) window: Window,
    /// Whether the condition asks for nothing else.
    pub(crate) are_all: bool,
}

/// The times of a filter that is one condition which asks when an event is. Takes no memory.
#[tactic(auto, using(spec_json::specs::Data::pairs_back))]
pub(crate) fn times_of(clock: &Clock, filter: &Tree) -> Option<Times>
    ensures value { result ≡ times_of clock.now (data_of filter.now) }
    ensures near { IfSome result (λ t. AreNear t.window) }
{
    match filter {
        Tree::Object(object) => object_times(clock, object),
        _ => None,
    }
}

fn object_times(clock: &Clock, object: &TreeObject) -> Option<Times>
    ensures value { result ≡ object_times clock.now object.now }
    ensures near { IfSome result (λ t. AreNear t.window) }
{
    if given(object, "operator").is_some() || !asks_time(object) {
        None
    } else {
        Some(condition_times(clock, object))
    }
}

fn condition_times(clock: &Clock, condition: &TreeObject) -> Times
    ensures value { result ≡ condition_times clock.now condition.now }
    ensures near { AreNear result.window }
{
    Times {
        window: instants_asked(clock, condition),
        are_all: !has_other_than(&TIME_NAMES, condition),
    }
}

impl<'a> EventTest<'a> {
    /// Whether a filter holds that is one condition with these times. The condition is looked at only where an event meets them and
    /// there is more to it. Takes memory for folded texts.
    pub(crate) fn holds_by(&self, times: Times, filter: &Tree) -> Result<bool, AllocError>
        requires times { times_of self.now.clock.now (data_of filter.now) ≡ Some times }
        requires near { AreNear times.window }
        ensures { IfOk result (λ b. b ≡ holds (event_meets self.now) (data_of filter.now)) }
    {
        if !self.overlaps_window(times.window) {
            return Ok(false);
        }
        if times.are_all {
            return Ok(true);
        }
        self.others_hold(filter)
    }

    // Whether all holds that a condition asks for but times.
    #[tactic(auto, using(spec_json::specs::Data::pairs_back))]
    fn others_hold(&self, filter: &Tree) -> Result<bool, AllocError>
        ensures { IfOk result (λ b. b ≡ others_meet (data_of self.now.event.now) (members_in (data_of filter.now))) }
    {
        match filter {
            Tree::Object(condition) => self.meets_others(condition),
            _ => Ok(true),
        }
    }
}
