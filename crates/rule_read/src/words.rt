//! The members of rules, and which there may be.
ghost use Rattle.std.specs.Prelude.{◌≡◌, ◌||◌, [], map, option_map};
ghost use Rattle.std.specs.List.{list_all, list_any};
ghost use Rattle.std.specs.Str.{bytes_eq};
ghost use Rattle.spec_json.specs.Data.{items_of, list};
ghost use Rattle.spec_json.specs.TreeData.{data_of, pair_of};
ghost use Rattle.spec_series.specs.RuleObjects.{has_only, has_right_words, is_absent, is_nday_object, is_rule_object, is_word_or_absent, nday_names, present, rule_names, present_at};

use spec_json::tree::{Member, Tree};

/// Whether a value counts as absent: null, or an empty list.
pub(crate) fn is_absent(value: &Tree) -> bool
    ensures { result ≡ is_absent (data_of value.now) }
{
    match value {
        Tree::Null => true,
        Tree::List(list) => are_none(list.items()),
        _ => false,
    }
}

// Whether there are no items.
#[tactic(auto, using(crate::proofs::ListLemmas::empty_is))]
fn are_none(items: &[Tree]) -> bool
    ensures { result ≡ is_absent (list (items_of (map data_of items.now))) }
{
    items.is_empty()
}

/// The value at a key, where it isn't absent. Takes no memory.
pub(crate) fn present_at<'a>(tree: &'a Tree, key: &str) -> Option<&'a Tree>
    ensures { option_map (λ t. data_of t.now) result ≡ present_at key.now (data_of tree.now) }
{
    match tree.get(key) {
        Some(value) => given(value),
        None => None,
    }
}

// The value, where it isn't absent.
fn given(value: &Tree) -> Option<&Tree>
    ensures { option_map (λ t. data_of t.now) result ≡ present (data_of value.now) }
{
    if is_absent(value) { None } else { Some(value) }
}

// Whether the value at a key is this word, or absent.
fn is_word_or_absent(tree: &Tree, key: &str, word: &str) -> bool
    ensures { result ≡ is_word_or_absent word.now (present_at key.now (data_of tree.now)) }
{
    match present_at(tree, key) {
        Some(Tree::Text(text)) => text.as_str() == word,
        Some(_) => false,
        None => true,
    }
}

/// Whether a value is an object with no other members than those of a rule, and with the one type and calendar that there are.
pub(crate) fn is_rule_object(tree: &Tree) -> bool
    ensures { result ≡ is_rule_object (data_of tree.now) }
{
    match tree {
        Tree::Object(_) => has_rule_names(tree) && has_right_words(tree),
        _ => false,
    }
}

fn has_right_words(tree: &Tree) -> bool
    ensures { result ≡ has_right_words (data_of tree.now) }
{
    is_word_or_absent(tree, "@type", "RecurrenceRule")
        && is_word_or_absent(tree, "rscale", "gregorian")
}

#[tactic(auto, using(spec_json::specs::Data::pairs_back))]
fn has_rule_names(tree: &Tree) -> bool
    ensures { result ≡ has_only rule_names (data_of tree.now) }
{
    match tree {
        Tree::Object(object) => are_of_rules(object.members()),
        _ => true,
    }
}

fn are_of_rules(members: &[Member]) -> bool
    ensures { result ≡ list_all (λ p. list_any (λ name. bytes_eq p.0 name) rule_names || is_absent p.1) (map pair_of members.now) }
{
    for member in members {
        if !is_rule_name(member.key.as_str()) && !is_absent(&member.value) {
            return false;
        }
    }
    true
}

fn is_rule_name(name: &str) -> bool
    ensures { result ≡ list_any (λ n. bytes_eq name.now n) rule_names }
{
    matches!(
        name,
        "@type"
            | "frequency"
            | "interval"
            | "rscale"
            | "skip"
            | "firstDayOfWeek"
            | "byDay"
            | "byMonthDay"
            | "byMonth"
            | "byYearDay"
            | "bySetPosition"
            | "count"
            | "until"
    )
}

/// Whether a value is an object with no other members than those of an item of `byDay`.
pub(crate) fn is_nday_object(tree: &Tree) -> bool
    ensures { result ≡ is_nday_object (data_of tree.now) }
{
    match tree {
        Tree::Object(_) => has_nday_names(tree) && is_word_or_absent(tree, "@type", "NDay"),
        _ => false,
    }
}

#[tactic(auto, using(spec_json::specs::Data::pairs_back))]
fn has_nday_names(tree: &Tree) -> bool
    ensures { result ≡ has_only nday_names (data_of tree.now) }
{
    match tree {
        Tree::Object(object) => are_of_ndays(object.members()),
        _ => true,
    }
}

fn are_of_ndays(members: &[Member]) -> bool
    ensures { result ≡ list_all (λ p. list_any (λ name. bytes_eq p.0 name) nday_names || is_absent p.1) (map pair_of members.now) }
{
    for member in members {
        if !is_nday_name(member.key.as_str()) && !is_absent(&member.value) {
            return false;
        }
    }
    true
}

fn is_nday_name(name: &str) -> bool
    ensures { result ≡ list_any (λ n. bytes_eq name.now n) nday_names }
{
    matches!(name, "@type" | "day" | "nthOfPeriod")
}
