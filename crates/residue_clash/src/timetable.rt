//! A series as it is compared with others.
ghost use Rattle.std.specs.Prelude.{◌≡◌, None};
ghost use Rattle.spec_series.specs.Lengths.{IsWeekLong};
ghost use Rattle.residue_clash.specs.RuleMaps.{IsMapGiven};

use crate::outline::Outline;
use crate::rule_track::RuleTrack;
use crate::tracks::{outline, tracks};
use spec_series::series::Series;
use std::marker::Model;

/// A series with what is worked out once for all comparisons with others. Contracts see the series.
#[derive(Drop)]
pub struct Timetable<'a> {
    pub(crate) series: &'a Series,
    pub(crate) outline: Outline<'a>,
    pub(crate) tracks: [Option<RuleTrack<'a>>; 8],
}

impl<'a> Model for Timetable<'a> {
    ghost use Rattle.spec_series.specs.declared.series.Series.{Series};
    ghost use Rattle.residue_clash.specs.Timetables.{IsTimetable};

    ghost Value = { Series };

    ghost view = { λ t. t.series.now };

    ghost invariant = { λ t. IsTimetable t.series.now t.outline t.tracks };
}

impl<'a> Timetable<'a> {
    /// The timetable of a series of which no occurrence lasts longer than 7 days. Takes no memory.
    pub fn of(series: &'a Series) -> Timetable<'a>
        requires { IsWeekLong series.now }
        ensures { result ≡ series.now }
    {
        Timetable::with_maps(series, None, None, None, None)
    }

    /// The same with maps of the days that its rules keep or move backward to, in order, where they are given. Takes no memory.
    pub fn with_maps(
        series: &'a Series,
        first: Option<&'a [u64]>,
        second: Option<&'a [u64]>,
        third: Option<&'a [u64]>,
        fourth: Option<&'a [u64]>,
    ) -> Timetable<'a>
        requires week { IsWeekLong series.now }
        requires first { IsMapGiven series.now 0 first }
        requires second { IsMapGiven series.now 1 second }
        requires third { IsMapGiven series.now 2 third }
        requires fourth { IsMapGiven series.now 3 fourth }
        ensures { result ≡ series.now }
    {
        Timetable {
            series,
            outline: outline(series),
            tracks: tracks(series, first, second, third, fourth),
        }
    }
}
