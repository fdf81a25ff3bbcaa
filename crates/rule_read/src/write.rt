//! Writes recurrence rules.
ghost use Rattle.std.specs.Prelude.{◌≡◌, ◌<◌, ◌∷◌, ◌++◌, [], codes, map, pos, true, unsigned_abs, IfOk};
ghost use Rattle.std.specs.Option.{option_map_or};
ghost use Rattle.spec_json.specs.Data.{items_of, list, text, whole};
ghost use Rattle.spec_json.specs.TreeData.{data_of, keyed};
ghost use Rattle.spec_series.specs.RuleLimits.{is_end};
ghost use Rattle.spec_series.specs.RuleObjects.{count_data, frequency_text, month_data, nday_data, nth_data, parts_of, rule_data, skip_members, until_data, weekday_text, year_day_members};

use spec_json::num::Num;
use spec_json::text::Text;
use spec_json::tree::{Tree, TreeList};
use spec_series::by_part::{End, Freq, NDay, Skip};
use spec_series::rule::Rule;
use std::alloc::{AllocError, Global};
use time_text::local_text;

/// The JSON object of a rule (RFC 8984 section 4.3.3). `read_rules` reads it as this rule, at the start for which the rule was read.
pub fn rule_tree(alloc: Global, rule: &Rule) -> Result<Tree, AllocError>
    ensures { IfOk result (λ t. data_of t ≡ rule_data (parts_of rule.now)) }
{
    let lists = Lists {
        by_day: nday_list(alloc, rule.by_day.items())?,
        by_month: month_list(alloc, rule.by_month.items())?,
        by_month_day: number_list(alloc, rule.by_month_day.items())?,
        by_year_day: year_day_list(alloc, rule.by_year_day.items())?,
        by_set: number_list(alloc, rule.by_set.items())?,
    };
    with_lists(alloc, rule, lists)
}

// The lists of a rule as trees, that of the days of the year where there are some.
#[derive(Drop)]
struct Lists {
    by_day: Tree,
    by_month: Tree,
    by_month_day: Tree,
    by_year_day: Option<Tree>,
    by_set: Tree,
}

#[tactic(auto, unfolding(spec_series::specs::RuleObjects::rule_data))]
fn with_lists(alloc: Global, rule: &Rule, lists: Lists) -> Result<Tree, AllocError>
    requires days { data_of lists.by_day ≡ list (items_of (map nday_data rule.now.by_day)) }
    requires months { data_of lists.by_month ≡ list (items_of (map month_data rule.now.by_month)) }
    requires month_days { data_of lists.by_month_day ≡ list (items_of (map whole rule.now.by_month_day)) }
    requires year_days { option_map_or (λ t. (codes "byYearDay", data_of t) ∷ []) lists.by_year_day [] ≡ year_day_members rule.now.by_year_day }
    requires places { data_of lists.by_set ≡ list (items_of (map whole rule.now.by_set)) }
    ensures { IfOk result (λ t. data_of t ≡ rule_data (parts_of rule.now)) }
{
    let mut members = list_members(alloc, lists)?;
    members.append(&mut other_members(alloc, rule)?)?;
    Tree::object(alloc, members)
}

// The members up to the lists, in byte order of their names.
fn list_members(alloc: Global, lists: Lists) -> Result<Vec<(&'static str, Tree)>, AllocError>
    ensures { IfOk result (λ ms. map keyed ms.items ≡
        (codes "@type", text (codes "RecurrenceRule"))
        ∷ (codes "byDay", data_of lists.by_day)
        ∷ (codes "byMonth", data_of lists.by_month)
        ∷ (codes "byMonthDay", data_of lists.by_month_day)
        ∷ (codes "bySetPosition", data_of lists.by_set)
        ∷ option_map_or (λ t. (codes "byYearDay", data_of t) ∷ []) lists.by_year_day []) }
{
    let Lists {
        by_day,
        by_month,
        by_month_day,
        by_year_day,
        by_set,
    } = lists;
    let kind = text_tree(alloc, "RecurrenceRule")?;
    let mut members = vec![in alloc;
        ("@type", kind),
        ("byDay", by_day),
        ("byMonth", by_month),
        ("byMonthDay", by_month_day),
        ("bySetPosition", by_set),
    ]?;
    if let Some(by_year_day) = by_year_day {
        members.push(("byYearDay", by_year_day))?;
    }
    Ok(members)
}

// The members after the lists, in byte order of their names.
fn other_members(alloc: Global, rule: &Rule) -> Result<Vec<(&'static str, Tree)>, AllocError>
    ensures { IfOk result (λ ms. map keyed ms.items ≡
        (codes "count", count_data rule.now.end)
        ∷ (codes "firstDayOfWeek", text (weekday_text rule.now.week_start))
        ∷ (codes "frequency", text (frequency_text rule.now.frequency))
        ∷ (codes "interval", whole (pos rule.now.interval))
        ∷ (skip_members rule.now.skip ++ (codes "until", until_data rule.now.end) ∷ [])) }
{
    let week_start = text_tree(alloc, weekday_name(rule.week_start))?;
    let frequency = text_tree(alloc, frequency_name(rule.frequency))?;
    let mut members = vec![in alloc;
        ("count", count_tree(rule.end)),
        ("firstDayOfWeek", week_start),
        ("frequency", frequency),
        ("interval", Tree::Whole(Num::new(i128::from(rule.interval)))),
    ]?;
    if let Some(skip) = skip_tree(alloc, rule.skip)? {
        members.push(("skip", skip))?;
    }
    members.push(("until", until_tree(alloc, rule.end)?))?;
    Ok(members)
}

fn text_tree(alloc: Global, word: &str) -> Result<Tree, AllocError>
    ensures { IfOk result (λ t. data_of t ≡ text word.now) }
{
    Ok(Tree::Text(Text::from_str(alloc, word)?))
}

#[tactic(auto, unfolding(spec_series::specs::RuleObjects::weekday_text))]
fn weekday_name(day: u8) -> &'static str
    ensures { result.now ≡ weekday_text day }
{
    match day {
        0 => "mo",
        1 => "tu",
        2 => "we",
        3 => "th",
        4 => "fr",
        5 => "sa",
        _ => "su",
    }
}

#[tactic(auto, unfolding(spec_series::specs::RuleObjects::frequency_text))]
fn frequency_name(frequency: Freq) -> &'static str
    ensures { result.now ≡ frequency_text frequency }
{
    match frequency {
        Freq::Daily => "daily",
        Freq::Weekly => "weekly",
        Freq::Monthly => "monthly",
        Freq::Yearly => "yearly",
    }
}

// What is done with dates that there aren't, where they aren't left out.
fn skip_tree(alloc: Global, skip: Skip) -> Result<Option<Tree>, AllocError>
    ensures { IfOk result (λ o. option_map_or (λ t. (codes "skip", data_of t) ∷ []) o [] ≡ skip_members skip) }
{
    match skip {
        Skip::Omit => Ok(None),
        Skip::Backward => Ok(Some(text_tree(alloc, "backward")?)),
        Skip::Forward => Ok(Some(text_tree(alloc, "forward")?)),
    }
}

fn count_tree(end: End) -> Tree
    ensures { data_of result ≡ count_data end }
{
    match end {
        End::Count(count) => Tree::Whole(Num::new(i128::from(count))),
        _ => Tree::Null,
    }
}

fn until_tree(alloc: Global, end: End) -> Result<Tree, AllocError>
    requires { is_end end ≡ true }
    ensures { IfOk result (λ t. data_of t ≡ until_data end) }
{
    match end {
        End::Until(until) => Ok(Tree::Text(local_text(alloc, until)?)),
        _ => Ok(Tree::Null),
    }
}

// The place, null where there is none.
fn nth_tree(nth: Option<i32>) -> Tree
    ensures { data_of result ≡ nth_data nth }
{
    match nth {
        Some(place) => Tree::Whole(Num::new(i128::from(place))),
        None => Tree::Null,
    }
}

fn nday_tree(alloc: Global, day: NDay) -> Result<Tree, AllocError>
    ensures { IfOk result (λ t. data_of t ≡ nday_data day) }
{
    let kind = text_tree(alloc, "NDay")?;
    let name = text_tree(alloc, weekday_name(day.day))?;
    let members = vec![in alloc;
        ("@type", kind),
        ("day", name),
        ("nthOfPeriod", nth_tree(day.nth)),
    ]?;
    Tree::object(alloc, members)
}

fn nday_list(alloc: Global, days: &[NDay]) -> Result<Tree, AllocError>
    ensures { IfOk result (λ t. data_of t ≡ list (items_of (map nday_data days.now))) }
{
    let mut items = Vec::new(alloc);
    for day in days {
        items.push(nday_tree(alloc, *day)?)?;
    }
    Ok(Tree::List(TreeList::new(items)))
}

fn month_tree(alloc: Global, month: i32) -> Result<Tree, AllocError>
    ensures { IfOk result (λ t. data_of t ≡ month_data month) }
{
    let number = month.unsigned_abs();
    Ok(Tree::Text(Text::from_string(format!(in alloc; "{number}")?)?))
}

fn month_list(alloc: Global, months: &[i32]) -> Result<Tree, AllocError>
    ensures { IfOk result (λ t. data_of t ≡ list (items_of (map month_data months.now))) }
{
    let mut items = Vec::new(alloc);
    for month in months {
        items.push(month_tree(alloc, *month)?)?;
    }
    Ok(Tree::List(TreeList::new(items)))
}

fn number_list(alloc: Global, numbers: &[i32]) -> Result<Tree, AllocError>
    ensures { IfOk result (λ t. data_of t ≡ list (items_of (map whole numbers.now))) }
{
    let mut items = Vec::new(alloc);
    for number in numbers {
        items.push(Tree::Whole(Num::new(i128::from(*number))))?;
    }
    Ok(Tree::List(TreeList::new(items)))
}

// The days of the year, where there are some.
fn year_day_list(alloc: Global, numbers: &[i32]) -> Result<Option<Tree>, AllocError>
    ensures { IfOk result (λ o. option_map_or (λ t. (codes "byYearDay", data_of t) ∷ []) o [] ≡ year_day_members numbers.now) }
{
    if numbers.is_empty() {
        return Ok(None);
    }
    Ok(Some(number_list(alloc, numbers)?))
}
