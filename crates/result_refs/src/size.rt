//! How long the texts of the values are that paths lead to, without a copy of them.
ghost use Rattle.std.specs.Prelude.{◌≡◌, ◌≤◌, drop, length, map, option_map};
ghost use Rattle.spec_json.specs.Parts.{all_some};
ghost use Rattle.spec_batch.specs.References.{joined, value_by};
ghost use Rattle.spec_json.specs.TreeData.{data_of};
ghost use Rattle.result_refs.specs.Sizes.{in_a_list, of_a_text, size_by_items};

use crate::path::{all_items, named_by};
use json_edge::length::{in_brackets, items_length, text_length};
use spec_json::text::Text;
use spec_json::tree::Tree;

/// How long the text of a value is, of a list by its items: these are what is put into a list that is joined.
#[derive(Clone, Copy, Drop)]
pub(crate) enum Size {
    /// A value that is no list, of so many bytes.
    Single(u64),
    /// A list, whose items have so many bytes, each with the comma or the bracket behind it.
    Items(u64),
}

impl Size {
    /// The bytes of the text. Takes no memory.
    pub(crate) fn of_a_text(self) -> u64
        ensures { result ≡ of_a_text self }
    {
        match self {
            Size::Single(bytes) => bytes,
            Size::Items(bytes) => in_brackets(bytes),
        }
    }

    // The bytes in a list, with the comma or the bracket behind.
    fn in_a_list(self) -> u64
        ensures { result ≡ in_a_list self }
    {
        match self {
            Size::Single(bytes) => bytes.saturating_add(1),
            Size::Items(bytes) => bytes,
        }
    }
}

#[tactic(auto, using(spec_json::specs::Data::items_back))]
fn size_by_items(value: &Tree) -> Size
    ensures { result ≡ size_by_items (data_of value.now) }
{
    match value {
        Tree::List(list) => Size::Items(items_length(list.items())),
        _ => Size::Single(text_length(value)),
    }
}

/// The size of the value that the parts from the place `i` on lead to from this one (RFC 8620 section 3.7). Takes no memory.
#[cycle(size)]
pub(crate) fn size_by(parts: &[Text], i: usize, value: &Tree) -> Option<Size>
    requires { i ≤ length parts.now }
    ensures { result ≡ option_map size_by_items (value_by (drop i parts.now) (data_of value.now)) }
{
    if i == parts.len() {
        return Some(size_by_items(value));
    }
    if let Some(items) = all_items(value, &parts[i]) {
        return size_joined(parts, i + 1, items);
    }
    match named_by(value, &parts[i]) {
        None => None,
        Some(named) => size_by(parts, i + 1, named),
    }
}

// The size of one list of what the parts from the place `i` on lead to from each item.
#[cycle(size)]
fn size_joined(parts: &[Text], i: usize, items: &[Tree]) -> Option<Size>
    requires { i ≤ length parts.now }
    ensures { result ≡ option_map size_by_items (option_map joined (all_some (λ d. value_by (drop i parts.now) d) (map data_of items.now))) }
{
    let mut bytes: u64 = 0;
    for item in items {
        match size_by(parts, i, item) {
            None => return None,
            Some(size) => bytes = bytes.saturating_add(size.in_a_list()),
        }
    }
    Some(Size::Items(bytes))
}
