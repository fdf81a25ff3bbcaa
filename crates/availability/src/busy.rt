//! Busy periods.
ghost use Rattle.std.specs.Prelude.{◌≡◌, ◌↔◌, ◌⊎◌, ◌≤◌, ◌&&◌, ◌||◌, ℤ, pos, ◌-ℤ◌, true, false, IfOk, OnOk};
ghost use Rattle.jiff_core.specs.Calendar.{IsWithin};
ghost use Rattle.jiff_tz.specs.PosixText.{tz_view};
ghost use Rattle.availability.specs.Merging.{are_inside, limits};
ghost use Rattle.spec_series.specs.SeriesLimits.{wall_seconds};
ghost use Rattle.spec_windows.specs.BusyPeriods.{are_runs, lies_in, is_busy, occupies, IsOccupied};
ghost use Rattle.spec_windows.specs.Clocks.{instant_in};

use crate::periods::{common_of, is_empty, runs_of};
use jiff_tz::posix::TimeZone;
use occurrence_windows::{expanded, span_of};
use spec_series::occurrence::Occurrence;
use spec_series::series::Series;
use spec_windows::period::Period;
use spec_windows::window::Window;
use std::alloc::{AllocError, Global};
use std::mem;

/// How many spans are kept at least before they are joined.
const LEAST_JOINED: usize = 65_536;

/// What occurrences take up of a window, of which the busy periods come: the maximal runs of its instants at which an occurrence takes up
/// time.
#[derive(Drop)]
pub struct Busy {
    /// The instants that are asked about.
    pub window: Period,
    /// What is taken up of them, in any order.
    pub spans: Vec<Period>,
    // how many spans are kept before they are joined
    most: usize,
    pub ghost inside: { are_inside window spans.items ≡ true },
    pub ghost near: { IsWithin 300000000000 window.from × IsWithin 300000000000 window.to },
}

// What an occurrence meets that has an instant of the window.
fn limits_of(window: Period) -> Window
    ensures { result ≡ limits window }
{
    Window {
        after: Some(window.from),
        before: Some(window.to),
    }
}

impl Busy {
    /// No instant of the window is busy. Takes no memory.
    pub fn new(alloc: Global, window: Period) -> Busy
        requires { IsWithin 300000000000 window.from × IsWithin 300000000000 window.to }
        ensures window { result.window ≡ window }
        ensures busy { (u : ℤ) → is_busy result.spans.items u ≡ false }
    {
        Busy {
            window,
            spans: Vec::new(alloc),
            most: LEAST_JOINED,
        }
    }

    /// The busy periods, in order. Takes memory for them.
    pub fn into_periods(self, alloc: Global) -> Result<Vec<Period>, AllocError>
        ensures runs { IfOk result (λ ps. are_runs (self.window.from -ℤ pos 1) self.window.to ps.items ≡ true) }
        ensures busy { IfOk result (λ ps. (u : ℤ) → is_busy ps.items u ≡ is_busy self.spans.items u) }
    {
        runs_of(alloc, self.spans)
    }

    // Joins the spans, so that no more are kept than there are runs.
    fn join(&mut self, alloc: Global) -> Result<(), AllocError>
        ensures window { self.new.window ≡ self.old.window }
        ensures busy { OnOk result ((u : ℤ) → is_busy self.new.spans.items u ≡ is_busy self.old.spans.items u) }
    {
        let spans = mem::replace(&mut self.spans, Vec::new(alloc));
        let runs = runs_of(alloc, spans)?;
        self.most = LEAST_JOINED.max(runs.len().saturating_mul(2));
        self.spans = runs;
        Ok(())
    }

    // Joins the spans, where they have become many.
    fn join_many(&mut self, alloc: Global) -> Result<(), AllocError>
        ensures window { self.new.window ≡ self.old.window }
        ensures busy { OnOk result ((u : ℤ) → is_busy self.new.spans.items u ≡ is_busy self.old.spans.items u) }
    {
        if self.spans.len() <= self.most {
            return Ok(());
        }
        self.join(alloc)
    }

    // Adds what a period has of the window.
    fn mark(&mut self, p: Period) -> Result<(), AllocError>
        ensures window { self.new.window ≡ self.old.window }
        ensures busy { OnOk result ((u : ℤ) → is_busy self.new.spans.items u ≡ (is_busy self.old.spans.items u || (lies_in u self.old.window && lies_in u p))) }
    {
        let cut = common_of(p, self.window);
        if is_empty(cut) {
            return Ok(());
        }
        self.spans.push(cut)?;
        Ok(())
    }

    // Adds what an occurrence takes up of the window.
    fn mark_occurrence(&mut self, rule: &TimeZone, o: &Occurrence) -> Result<(), AllocError>
        requires start { IsWithin 400000000000 o.now.start }
        requires length { wall_seconds o.now.length ≤ 31622400 }
        ensures window { self.new.window ≡ self.old.window }
        ensures busy { OnOk result ((u : ℤ) → is_busy self.new.spans.items u
            ≡ (is_busy self.old.spans.items u || (lies_in u self.old.window && occupies (instant_in (tz_view rule.now)) u o.now))) }
    {
        if !o.occupying {
            return Ok(());
        }
        match span_of(rule, o) {
            None => Ok(()),
            Some(p) => self.mark(p),
        }
    }

    // Adds what the occurrences of a series take up of the window.
    fn mark_series(
        &mut self,
        alloc: Global,
        series: &Series,
        rule: &TimeZone,
    ) -> Result<(), AllocError>
        ensures window { self.new.window ≡ self.old.window }
        ensures busy { OnOk result ((u : ℤ) → is_busy self.new.spans.items u ≡ true
            ↔ ((is_busy self.old.spans.items u ≡ true)
            ⊎ ((lies_in u self.old.window ≡ true) × IsOccupied series.now (instant_in (tz_view rule.now)) u))) }
    {
        let occurrences = expanded(alloc, series, rule, limits_of(self.window))?;
        for o in &occurrences {
            self.mark_occurrence(rule, o)?;
        }
        Ok(())
    }

    /// Adds what the occurrences of a series take up of the window, in a zone of this rule.
    ///
    /// An instant of the window is busy afterwards where it was before, and where an occurrence takes it up. Out of memory
    /// some of the occurrences may be left out, also those that were added before.
    pub fn add(&mut self, alloc: Global, series: &Series, rule: &TimeZone) -> Result<(), AllocError>
        ensures window { self.new.window ≡ self.old.window }
        ensures busy { OnOk result ((u : ℤ) → is_busy self.new.spans.items u ≡ true
            ↔ ((is_busy self.old.spans.items u ≡ true)
            ⊎ ((lies_in u self.old.window ≡ true) × IsOccupied series.now (instant_in (tz_view rule.now)) u))) }
    {
        self.mark_series(alloc, series, rule)?;
        self.join_many(alloc)
    }
}
