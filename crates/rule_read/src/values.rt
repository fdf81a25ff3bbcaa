//! The single values of rules. Nothing here takes memory.
ghost use Rattle.std.specs.Prelude.{◌≡◌, ◌<◌, ◌≤◌, Some, None, true, IfSome, option_and_then, option_map};
ghost use Rattle.spec_json.specs.Number.{number_in};
ghost use Rattle.std.specs.Int.{IsInRange};
ghost use Rattle.spec_json.specs.Parts.{as_text, as_whole};
ghost use Rattle.spec_json.specs.TreeData.{data_of};
ghost use Rattle.spec_series.specs.RuleLimits.{is_end, is_month, is_place_to};
ghost use Rattle.spec_series.specs.RuleObjects.{end_in, frequency_in, frequency_named, interval_in, local_at, month_in, month_of_number, nday_in, nday_of, nth_in, place_in, place_of, skip_in, skip_named, thousand_in, thousand_of, week_start_in, weekday_in, weekday_named};
ghost use Rattle.spec_time.specs.Walls.{is_in_years};

use crate::words::{is_nday_object, present_at};
use spec_json::tree::Tree;
use spec_series::by_part::{End, Freq, NDay, Skip};
use spec_time::wall::Wall;
use time_text::{read_local, read_number};

// The text that a value is.
fn text_of(value: &Tree) -> Option<&str>
    ensures { option_map (λ s. s.now) result ≡ as_text (data_of value.now) }
{
    match value {
        Tree::Text(text) => Some(text.as_str()),
        _ => None,
    }
}

// The number that a value is.
fn whole_of(value: &Tree) -> Option<i128>
    ensures { result ≡ as_whole (data_of value.now) }
{
    match value {
        Tree::Whole(number) => Some(number.get()),
        _ => None,
    }
}

#[tactic(auto, unfolding(spec_series::specs::RuleObjects::frequency_named))]
fn frequency_named(word: &str) -> Option<Freq>
    ensures { result ≡ frequency_named word.now }
{
    match word {
        "daily" => Some(Freq::Daily),
        "weekly" => Some(Freq::Weekly),
        "monthly" => Some(Freq::Monthly),
        "yearly" => Some(Freq::Yearly),
        _ => None,
    }
}

/// The frequency that a value names.
pub(crate) fn frequency(value: &Tree) -> Option<Freq>
    ensures { result ≡ frequency_in (data_of value.now) }
{
    match text_of(value) {
        Some(word) => frequency_named(word),
        None => None,
    }
}

#[tactic(auto, unfolding(spec_series::specs::RuleObjects::skip_named))]
fn skip_named(word: &str) -> Option<Skip>
    ensures { result ≡ skip_named word.now }
{
    match word {
        "omit" => Some(Skip::Omit),
        "backward" => Some(Skip::Backward),
        "forward" => Some(Skip::Forward),
        _ => None,
    }
}

/// What is done with dates that a month lacks: they are left out where no word is given.
pub(crate) fn skip(value: Option<&Tree>) -> Option<Skip>
    ensures { result ≡ skip_in (option_map (λ t. data_of t.now) value.entry) }
{
    let Some(value) = value else {
        return Some(Skip::Omit);
    };
    match text_of(value) {
        Some(word) => skip_named(word),
        None => None,
    }
}

#[tactic(auto, unfolding(spec_series::specs::RuleObjects::weekday_named))]
fn weekday_named(word: &str) -> Option<u8>
    ensures named { result ≡ weekday_named word.now }
    ensures bound { IfSome result (λ d. d < 7) }
{
    match word {
        "mo" => Some(0),
        "tu" => Some(1),
        "we" => Some(2),
        "th" => Some(3),
        "fr" => Some(4),
        "sa" => Some(5),
        "su" => Some(6),
        _ => None,
    }
}

// The day of the week that a value names.
fn weekday(value: &Tree) -> Option<u8>
    ensures value { result ≡ weekday_in (data_of value.now) }
    ensures bound { IfSome result (λ d. d < 7) }
{
    match text_of(value) {
        Some(word) => weekday_named(word),
        None => None,
    }
}

/// The day with which weeks begin, Monday where none is given.
pub(crate) fn week_start(value: Option<&Tree>) -> Option<u8>
    ensures value { result ≡ week_start_in (option_map (λ t. data_of t.now) value.entry) }
    ensures bound { IfSome result (λ d. d < 7) }
{
    match value {
        Some(value) => weekday(value),
        None => Some(0),
    }
}

fn thousand_of(number: i128) -> Option<u32>
    ensures value { result ≡ thousand_of number }
    ensures bound { IfSome result (λ n. IsInRange 1 1000 n) }
{
    if number >= 1 && number <= 1000 {
        Some(number as u32)
    } else {
        None
    }
}

// The number from 1 to 1000 that a value is.
fn thousand(value: &Tree) -> Option<u32>
    ensures value { result ≡ thousand_in (data_of value.now) }
    ensures bound { IfSome result (λ n. IsInRange 1 1000 n) }
{
    match whole_of(value) {
        Some(number) => thousand_of(number),
        None => None,
    }
}

/// The interval, 1 where none is given.
pub(crate) fn interval(value: Option<&Tree>) -> Option<u32>
    ensures value { result ≡ interval_in (option_map (λ t. data_of t.now) value.entry) }
    ensures bound { IfSome result (λ n. IsInRange 1 1000 n) }
{
    match value {
        Some(value) => thousand(value),
        None => Some(1),
    }
}

// The wall second that a value tells.
fn local(value: &Tree) -> Option<Wall>
    ensures value { result ≡ local_at (data_of value.now) }
    ensures years { IfSome result (λ w. is_in_years w ≡ true) }
{
    match text_of(value) {
        Some(text) => read_local(text.as_bytes()),
        None => None,
    }
}

fn counted(value: &Tree) -> Option<End>
    ensures value { result ≡ end_in (Some (data_of value.now)) None }
    ensures bound { IfSome result (λ e. is_end e ≡ true) }
{
    match thousand(value) {
        Some(count) => Some(End::Count(count)),
        None => None,
    }
}

fn ended(value: &Tree) -> Option<End>
    ensures value { result ≡ end_in None (Some (data_of value.now)) }
    ensures bound { IfSome result (λ e. is_end e ≡ true) }
{
    match local(value) {
        Some(until) => Some(End::Until(until)),
        None => None,
    }
}

/// The end that `count` and `until` tell, of which there may be one.
pub(crate) fn end(count: Option<&Tree>, until: Option<&Tree>) -> Option<End>
    ensures value { result ≡ end_in (option_map (λ t. data_of t.now) count.entry) (option_map (λ t. data_of t.now) until.entry) }
    ensures bound { IfSome result (λ e. is_end e ≡ true) }
{
    match (count, until) {
        (None, None) => Some(End::Never),
        (Some(count), None) => counted(count),
        (None, Some(until)) => ended(until),
        (Some(_), Some(_)) => None,
    }
}

fn place_of(most: u32, number: i128) -> Option<i32>
    requires { most ≤ 366 }
    ensures value { result ≡ place_of most number }
    ensures bound { IfSome result (λ k. is_place_to most k ≡ true) }
{
    let size = number.unsigned_abs();
    if size >= 1 && size <= u128::from(most) {
        Some(number as i32)
    } else {
        None
    }
}

/// The place from the front or from the end that a value is, to a greatest one.
pub(crate) fn place(most: u32, value: &Tree) -> Option<i32>
    requires { most ≤ 366 }
    ensures value { result ≡ place_in most (data_of value.now) }
    ensures bound { IfSome result (λ k. is_place_to most k ≡ true) }
{
    match whole_of(value) {
        Some(number) => place_of(most, number),
        None => None,
    }
}

fn month_of_number(number: u64) -> Option<i32>
    ensures value { result ≡ month_of_number number }
    ensures bound { IfSome result (λ m. is_month m ≡ true) }
{
    if number >= 1 && number <= 12 {
        Some(number as i32)
    } else {
        None
    }
}

fn month_named(text: &str) -> Option<i32>
    ensures value { result ≡ option_and_then month_of_number (number_in text.now) }
    ensures bound { IfSome result (λ m. is_month m ≡ true) }
{
    match read_number(text.as_bytes()) {
        Some(number) => month_of_number(number),
        None => None,
    }
}

/// The month that a value names, "1" to "12".
pub(crate) fn month(value: &Tree) -> Option<i32>
    ensures value { result ≡ month_in (data_of value.now) }
    ensures bound { IfSome result (λ m. is_month m ≡ true) }
{
    match text_of(value) {
        Some(text) => month_named(text),
        None => None,
    }
}

// The place of a day of the week, `Some(None)` where none is given.
fn nth(frequency: Freq, value: Option<&Tree>) -> Option<Option<i32>>
    ensures { result ≡ nth_in frequency (option_map (λ t. data_of t.now) value.entry) }
{
    let Some(value) = value else {
        return Some(None);
    };
    match frequency {
        Freq::Daily | Freq::Weekly => None,
        Freq::Monthly | Freq::Yearly => some_place(value),
    }
}

fn some_place(value: &Tree) -> Option<Option<i32>>
    ensures { result ≡ option_map (λ k. Some k) (place_in 53 (data_of value.now)) }
{
    match place(53, value) {
        Some(place) => Some(Some(place)),
        None => None,
    }
}

fn nday_of(day: Option<u8>, nth: Option<Option<i32>>) -> Option<NDay>
    ensures { result ≡ nday_of day nth }
{
    match (day, nth) {
        (Some(day), Some(nth)) => Some(NDay { day, nth }),
        _ => None,
    }
}

// The day of the week that the value at `day` names.
fn day_at(value: Option<&Tree>) -> Option<u8>
    ensures { result ≡ option_and_then weekday_in (option_map (λ t. data_of t.now) value.entry) }
{
    match value {
        Some(value) => weekday(value),
        None => None,
    }
}

/// The day of the week that an item of `byDay` names.
pub(crate) fn nday(frequency: Freq, item: &Tree) -> Option<NDay>
    ensures { result ≡ nday_in frequency (data_of item.now) }
{
    if !is_nday_object(item) {
        return None;
    }
    nday_of(
        day_at(present_at(item, "day")),
        nth(frequency, present_at(item, "nthOfPeriod")),
    )
}
