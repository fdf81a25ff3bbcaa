//! The instants that the times of a filter stand for.
ghost use Rattle.std.specs.Prelude.{◌≡◌, ◌≤◌, IfSome, option_and_then, true, vec_len};
ghost use Rattle.jiff_core.specs.Calendar.{IsWithin};
ghost use Rattle.jiff_tz.specs.PosixText.{tz_view};
ghost use Rattle.spec_time.specs.LocalTimes.{local_in};
ghost use Rattle.spec_windows.specs.Clocks.{instant_in};
ghost use Rattle.query_filter.specs.TimesRead.{are_times};
ghost use Rattle.query_filter.specs.declared.clock.TheConstants.{MAX_KEPT};

use jiff_tz::posix::TimeZone;
use spec_json::text::Text;
use std::alloc::{AllocError, Global};
use std::marker::Model;
use time_text::read_local;
use zone_instants::instant;

/// The most times that are kept. Others are read for each event.
const MAX_KEPT: usize = 16;

/// The text of a LocalDateTime with its instant.
#[derive(Drop)]
struct TimeRead {
    text: Text,
    instant: i64,
}

/// The rule of a zone with times that were read by it. Contracts see the rule.
#[derive(Drop)]
pub(crate) struct Clock {
    rule: TimeZone,
    times: Vec<TimeRead>,
    ghost are_few: { vec_len times ≤ MAX_KEPT },
}

impl Model for Clock {
    ghost use Rattle.std.specs.Prelude.{◌≡◌, true};
    ghost use Rattle.jiff_tz.specs.PosixText.{TzText, tz_view};
    ghost use Rattle.query_filter.specs.TimesRead.{are_times};

    ghost Value = { TzText };

    ghost view = { λ a. tz_view a.rule };

    ghost invariant = { λ a. are_times (tz_view a.rule) a.times.items ≡ true };
}

impl Clock {
    /// The clock of a rule. Takes no memory.
    pub(crate) fn new(alloc: Global, rule: TimeZone) -> Clock
        ensures { result ≡ tz_view rule }
    {
        Clock {
            rule,
            times: Vec::new(alloc),
        }
    }

    /// Reads a time, where there is room for it.
    pub(crate) fn keep(&mut self, text: &Text) -> Result<(), AllocError>
        ensures { self.new ≡ self.old }
    {
        if self.times.len() < MAX_KEPT {
            if let Some(instant) = instant_named(&self.rule, text) {
                let text = text.copy()?;
                self.times.push(TimeRead { text, instant })?;
            }
        }
        Ok(())
    }

    /// The instant that a LocalDateTime stands for. Takes no memory.
    #[tactic(auto, using(crate::proofs::ClockLemmas::named_near))]
    pub(crate) fn instant_named(&self, text: &Text) -> Option<i64>
        ensures value { result ≡ option_and_then (instant_in self.now) (local_in text.now) }
        ensures near { IfSome result (IsWithin 300000000000) }
    {
        instant_by(&self.rule, &self.times, text)
    }
}

// The instant that a LocalDateTime stands for by a rule, looked up among those that were read.
fn instant_by(rule: &TimeZone, times: &[TimeRead], text: &Text) -> Option<i64>
    requires { are_times (tz_view rule.now) times.now ≡ true }
    ensures { result ≡ option_and_then (instant_in (tz_view rule.now)) (local_in text.now) }
{
    for time in times {
        if time.text.as_str() == text.as_str() {
            return Some(time.instant);
        }
    }
    instant_named(rule, text)
}

fn instant_named(rule: &TimeZone, text: &Text) -> Option<i64>
    ensures { result ≡ option_and_then (instant_in (tz_view rule.now)) (local_in text.now) }
{
    instant(rule, read_local(text.as_str().as_bytes())?)
}
