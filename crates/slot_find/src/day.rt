//! The starts of one day.
ghost use Rattle.std.specs.Prelude.{◌≡◌, ◌≤ℤ◌, ℤ, IfErr, IfOk, None, OnOk, is_some, true};
ghost use Rattle.residue_clash.specs.RuleMaps.{IsMapGiven};
ghost use Rattle.rule_read.specs.declared.error.RulesError.TheVariants.{BadRules};
ghost use Rattle.slot_find.specs.Steps.{AreOfOneDay, IsMoved, IsWished, LooksAt};
ghost use Rattle.spec_json.specs.TreeData.{data_of};
ghost use Rattle.spec_series.specs.RuleObjects.{rules_in};
ghost use Rattle.spec_slots.specs.Quarters.{quarters};
ghost use Rattle.spec_slots.specs.Wishes.{wish_clash};
ghost use Rattle.spec_time.specs.Walls.{is_in_years};

use crate::quarters::{first_quarter, is_before, next_quarter};
use residue_clash::{Timetable, fill_map, wants_maps};
use resource_book::Room;
use rule_read::{RulesError, read_rules};
use spec_bookings::clash::Clash;
use spec_series::exception::Exceptions;
use spec_series::series::Series;
use spec_slots::slot::Tried;
use spec_slots::wish::Wish;
use spec_time::wall::Wall;
use std::alloc::{AllocError, Global};

/// Tries the quarters of a day from a wall second on up to but without another, in order: the first at which nothing stands against the
/// wish, if there is one. Each before it is told. The rules are read once, since what they mean depends on the day of the start alone.
pub(crate) fn try_day(
    alloc: Global,
    room: &Room,
    wish: &Wish,
    at: Wall,
    end: Wall,
    tried: &mut Vec<Tried>,
) -> Result<Option<Wall>, RulesError>
    requires at { is_in_years at ≡ true }
    requires end { is_in_years end ≡ true }
    requires order { at ≤ℤ end }
    requires day { AreOfOneDay at end }
    ensures looks { IfOk result (λ found. LooksAt (wish_clash room.now.bookings wish.now.length (data_of wish.now.rules)) (quarters at end) tried.old.items found tried.new.items) }
    ensures read { OnOk result (is_some (rules_in at (data_of wish.now.rules)) ≡ true) }
    ensures bad { IfErr result (λ error. error ≡ BadRules → rules_in at (data_of wish.now.rules) ≡ None) }
{
    let rules = read_rules(alloc, &wish.rules, at)?;
    let series = Series {
        start: at,
        length: wish.length,
        occupying: true,
        rules,
        exceptions: Exceptions::none(),
    };
    if wants_maps(&series) {
        Ok(try_by_maps(room, wish, series, end, tried)?)
    } else {
        Ok(try_quarters(room, wish, series, None, None, None, None, end, tried)?)
    }
}

// The same by maps of the days of the rules, which serve all starts of the day.
fn try_by_maps(
    room: &Room,
    wish: &Wish,
    series: Series,
    end: Wall,
    tried: &mut Vec<Tried>,
) -> Result<Option<Wall>, AllocError>
    requires wished { IsWished wish.now.length (data_of wish.now.rules) series }
    requires end { is_in_years end ≡ true }
    requires order { series.start ≤ℤ end }
    requires day { AreOfOneDay series.start end }
    ensures { IfOk result (λ found. LooksAt (wish_clash room.now.bookings wish.now.length (data_of wish.now.rules)) (quarters series.start end) tried.old.items found tried.new.items) }
{
    let mut first = [0u64; 2283];
    let mut second = [0u64; 2283];
    let mut third = [0u64; 2283];
    let mut fourth = [0u64; 2283];
    fill_map(&mut first, &series, 0);
    fill_map(&mut second, &series, 1);
    fill_map(&mut third, &series, 2);
    fill_map(&mut fourth, &series, 3);
    try_quarters(
        room,
        wish,
        series,
        Some(&first),
        Some(&second),
        Some(&third),
        Some(&fourth),
        end,
        tried,
    )
}

// The same with the maps that are given.
fn try_quarters(
    room: &Room,
    wish: &Wish,
    series: Series,
    first: Option<&[u64]>,
    second: Option<&[u64]>,
    third: Option<&[u64]>,
    fourth: Option<&[u64]>,
    end: Wall,
    tried: &mut Vec<Tried>,
) -> Result<Option<Wall>, AllocError>
    requires wished { IsWished wish.now.length (data_of wish.now.rules) series }
    requires first { IsMapGiven series 0 first }
    requires second { IsMapGiven series 1 second }
    requires third { IsMapGiven series 2 third }
    requires fourth { IsMapGiven series 3 fourth }
    requires end { is_in_years end ≡ true }
    requires order { series.start ≤ℤ end }
    requires day { AreOfOneDay series.start end }
    ensures { IfOk result (λ found. LooksAt (wish_clash room.now.bookings wish.now.length (data_of wish.now.rules)) (quarters series.start end) tried.old.items found tried.new.items) }
{
    let mut at = first_quarter(series.start);
    let mut proposed = series;
    'quarters: while is_before(at, end) {
        proposed = moved_to(proposed, at);
        match clash_of(room, wish, &proposed, first, second, third, fourth) {
            Some(clash) => tried.push(Tried { start: at, clash })?,
            None => return Ok(Some(at)),
        }
        at = next_quarter(at);
    }
    Ok(None)
}

// The series at another start.
fn moved_to(series: Series, at: Wall) -> Series
    requires { is_in_years at ≡ true }
    ensures start { result.start ≡ at }
    ensures same { IsMoved series result }
{
    let Series {
        length,
        occupying,
        rules,
        exceptions,
        ..
    } = series;
    Series {
        start: at,
        length,
        occupying,
        rules,
        exceptions,
    }
}

// What stands against the wish where it begins as the series does, with the maps that are given.
fn clash_of(
    room: &Room,
    wish: &Wish,
    series: &Series,
    first: Option<&[u64]>,
    second: Option<&[u64]>,
    third: Option<&[u64]>,
    fourth: Option<&[u64]>,
) -> Option<Clash>
    requires wished { IsWished wish.now.length (data_of wish.now.rules) series.now }
    requires first { IsMapGiven series.now 0 first }
    requires second { IsMapGiven series.now 1 second }
    requires third { IsMapGiven series.now 2 third }
    requires fourth { IsMapGiven series.now 3 fourth }
    ensures { wish_clash room.now.bookings wish.now.length (data_of wish.now.rules) series.now.start ≡ result }
{
    let timetable = Timetable::with_maps(series, first, second, third, fourth);
    room.check_by(None, &timetable)
}
