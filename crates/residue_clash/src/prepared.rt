//! A series prepared for comparisons with many others.
ghost use Rattle.std.specs.Prelude.{◌≡◌, IfOk};
ghost use Rattle.spec_series.specs.Lengths.{IsWeekLong};

use crate::kept_rule::{KeptRule, kept_rules};
use crate::timetable::Timetable;
use crate::tracks::{kept_tracks, outline};
use spec_series::series::Series;
use std::alloc::{AllocError, Global};
use std::marker::Model;

/// A series with maps of the days that its rules give, in memory. Contracts see the series.
#[derive(Drop)]
pub struct Prepared {
    series: Series,
    kept: [Option<KeptRule>; 4],
}

impl Model for Prepared {
    ghost use Rattle.spec_series.specs.declared.series.Series.{Series};
    ghost use Rattle.residue_clash.specs.Timetables.{IsPrepared};

    ghost Value = { Series };

    ghost view = { λ p. p.series };

    ghost invariant = { λ p. IsPrepared p.series p.kept };
}

impl Prepared {
    /// Prepares a copy of a series, of which no occurrence lasts longer than 7 days. Takes memory for the copy and for maps, of at most 18,264
    /// bytes for each rule, twice that for one that moves forward; a rule that looks at days of the week alone has none.
    pub fn of(alloc: Global, series: &Series) -> Result<Prepared, AllocError>
        requires { IsWeekLong series.now }
        ensures { IfOk result (λ p. p ≡ series.now) }
    {
        let kept = kept_rules(alloc, series)?;
        Ok(Prepared {
            series: series.copy(alloc)?,
            kept,
        })
    }

    // Its timetable.
    pub(crate) fn timetable(&self) -> Timetable<'_>
        ensures { result ≡ self.now }
    {
        Timetable {
            series: &self.series,
            outline: outline(&self.series),
            tracks: kept_tracks(&self.series, &self.kept),
        }
    }
}
