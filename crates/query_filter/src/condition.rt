//! Whether a condition holds of an event.
ghost use Rattle.std.specs.Prelude.{◌≡◌, IfOk, IfSome, codes, option_and_then, option_map};
ghost use Rattle.jiff_core.specs.Calendar.{IsWithin};
ghost use Rattle.jiff_tz.specs.PosixText.{tz_view};
ghost use Rattle.spec_filters.specs.Matches.{asks, contains_at, has_uid, instants_asked, is_in_calendar, overlaps_by, says, times_meet, wall_given};
ghost use Rattle.spec_json.specs.TreeData.{data_of};
ghost use Rattle.spec_windows.specs.Clocks.{instant_in};
ghost use Rattle.occurrence_windows.specs.Bounds.{AreNear};
ghost use Rattle.query_filter.specs.EventTests.{event_meets};
ghost use Rattle.query_filter.specs.KeptTimes.{has_ids, others_meet, texts_meet};

use crate::clock::Clock;
use crate::needles::Needles;
use crate::sought::asks_time;
use crate::texts::{has_uid, is_in_calendar};
use jiff_tz::posix::TimeZone;
use occurrence_windows::matches_window;
use spec_json::tree::{Tree, TreeObject};
use spec_series::series::Series;
use spec_windows::window::Window;
use std::alloc::{AllocError, Global};

/// An event, by which conditions are tested.
#[derive(Clone, Copy)]
pub(crate) struct EventTest<'a> {
    pub(crate) alloc: Global,
    /// The clock of the query's zone.
    pub(crate) clock: &'a Clock,
    pub(crate) needles: &'a Needles,
    pub(crate) event: &'a Tree,
    /// The series of the event, where it has one.
    pub(crate) series: Option<&'a Series>,
    /// The rule of its zone, where there is one.
    pub(crate) rule: Option<&'a TimeZone>,
}

impl<'a> EventTest<'a> {
    /// Whether a condition holds. Takes memory for folded texts.
    #[tactic(auto, unfolding(spec_filters::specs::Matches::meets_condition))]
    pub(crate) fn meets(&self, condition: &TreeObject) -> Result<bool, AllocError>
        ensures { IfOk result (λ b. b ≡ event_meets self.now condition.now) }
    {
        if !self.has_ids(condition) {
            return Ok(false);
        }
        if !self.meets_times(condition) {
            return Ok(false);
        }
        self.meets_texts(condition)
    }

    /// Whether all holds that a condition asks for but times. Takes memory for folded texts.
    pub(crate) fn meets_others(&self, condition: &TreeObject) -> Result<bool, AllocError>
        ensures { IfOk result (λ b. b ≡ others_meet (data_of self.now.event.now) condition.now) }
    {
        if self.has_ids(condition) {
            self.meets_texts(condition)
        } else {
            Ok(false)
        }
    }

    fn has_ids(&self, condition: &TreeObject) -> bool
        ensures { result ≡ has_ids (data_of self.now.event.now) condition.now }
    {
        self.meets_calendar(condition) && self.meets_uid(condition)
    }

    fn meets_texts(&self, condition: &TreeObject) -> Result<bool, AllocError>
        ensures { IfOk result (λ b. b ≡ texts_meet (data_of self.now.event.now) condition.now) }
    {
        if !self.meets_title(condition)? {
            return Ok(false);
        }
        if !self.meets_text(condition)? {
            return Ok(false);
        }
        self.needles.people_meet(
            self.alloc,
            self.event,
            condition.text_at("participant"),
            condition.text_at("participationStatus"),
        )
    }

    fn meets_calendar(&self, condition: &TreeObject) -> bool
        ensures { result ≡ asks (codes "inCalendar") condition.now (is_in_calendar (data_of self.now.event.now)) }
    {
        match condition.text_at("inCalendar") {
            Some(id) => is_in_calendar(self.event, id),
            None => true,
        }
    }

    fn meets_uid(&self, condition: &TreeObject) -> bool
        ensures { result ≡ asks (codes "uid") condition.now (has_uid (data_of self.now.event.now)) }
    {
        match condition.text_at("uid") {
            Some(uid) => has_uid(self.event, uid),
            None => true,
        }
    }

    fn meets_title(&self, condition: &TreeObject) -> Result<bool, AllocError>
        ensures { IfOk result (λ b. b ≡ asks (codes "title") condition.now (contains_at (codes "title") (data_of self.now.event.now))) }
    {
        match condition.text_at("title") {
            Some(needle) => self.needles.are_at(self.alloc, "title", self.event, needle),
            None => Ok(true),
        }
    }

    fn meets_text(&self, condition: &TreeObject) -> Result<bool, AllocError>
        ensures { IfOk result (λ b. b ≡ asks (codes "text") condition.now (says (data_of self.now.event.now))) }
    {
        match condition.text_at("text") {
            Some(needle) => self.needles.are_said(self.alloc, self.event, needle),
            None => Ok(true),
        }
    }

    fn meets_times(&self, condition: &TreeObject) -> bool
        ensures { result ≡ times_meet self.now.clock.now (option_map (λ s. s.now) self.now.series) (option_map (λ r. tz_view r.now) self.now.rule) condition.now }
    {
        if asks_time(condition) {
            self.overlaps_window(instants_asked(self.clock, condition))
        } else {
            true
        }
    }

    /// Whether one occurrence of the event ends after the one limit and starts before the other. Takes no memory.
    pub(crate) fn overlaps_window(&self, window: Window) -> bool
        requires { AreNear window }
        ensures { result ≡ overlaps_by (option_map (λ s. s.now) self.now.series) (option_map (λ r. tz_view r.now) self.now.rule) window }
    {
        match (self.series, self.rule) {
            (Some(series), Some(rule)) => matches_window(series, rule, window),
            _ => false,
        }
    }
}

/// The window between the instants of `after` and `before` of a condition. Takes no memory.
pub(crate) fn instants_asked(clock: &Clock, condition: &TreeObject) -> Window
    ensures value { result ≡ instants_asked clock.now condition.now }
    ensures near { AreNear result }
{
    Window {
        after: instant_given(clock, condition, "after"),
        before: instant_given(clock, condition, "before"),
    }
}

fn instant_given(clock: &Clock, condition: &TreeObject, key: &str) -> Option<i64>
    ensures value { result ≡ option_and_then (instant_in clock.now) (wall_given key.now condition.now) }
    ensures near { IfSome result (IsWithin 300000000000) }
{
    clock.instant_named(condition.text_at(key)?)
}
