//! How long the texts of trees are.
ghost use Rattle.std.specs.Prelude.{◌≡◌, ◌+◌, ◌≤◌, decimal, length, map, max};
ghost use Rattle.json.specs.Print.{escape_byte, quoted};
ghost use Rattle.serde_json.specs.Find.{of_integer};
ghost use Rattle.serde_json.specs.Written.{number_text};
ghost use Rattle.spec_json.specs.Json.{text_of};
ghost use Rattle.spec_json.specs.TreeData.{data_of, pair_of};
ghost use Rattle.json_edge.specs.Lengths.{saturated, size_of_items, size_of_members};

use spec_json::num::Num;
use spec_json::tree::{Member, Tree};

// How many digits a number has.
fn digits(number: u64) -> u64
    ensures count { result ≡ length (decimal number) }
    ensures most { result ≤ 20 }
{
    let mut rest = number;
    let mut count = 1;
    while rest >= 10 {
        rest /= 10;
        count += 1;
    }
    count
}

fn whole_length(n: &Num) -> u64
    ensures { result ≡ length (number_text (of_integer n.now)) }
{
    let n = n.get();
    if n >= 0 {
        digits(n as u64)
    } else {
        1 + digits((-n) as u64)
    }
}

// How many bytes stand for one in a string.
#[tactic(auto, unfolding(json::specs::Print::escape_byte))]
fn escape_length(byte: u8) -> u64
    ensures { result ≡ length (escape_byte byte) }
{
    match byte {
        8 | 9 | 10 | 12 | 13 | 34 | 92 => 2,
        0..=31 => 6,
        _ => 1,
    }
}

fn quoted_length(text: &str) -> u64
    ensures { result ≡ saturated (length (quoted text.now)) }
{
    let mut size: u64 = 2;
    for byte in text.as_bytes() {
        size = size.saturating_add(escape_length(*byte));
    }
    size
}

/// The length of the text of a list or an object whose parts have so many bytes, each with the comma or the bracket behind it.
/// Takes no memory.
pub fn in_brackets(parts: u64) -> u64
    ensures { result ≡ saturated (1 + max 1 parts) }
{
    parts.max(1).saturating_add(1)
}

/// The lengths of the compact texts of these together, each with the comma or the bracket behind it. Takes no memory.
#[cycle(text_length)]
#[tactic(auto, using(spec_json::specs::TreeDepth::item_falls, spec_json::specs::TreeDepth::member_falls, spec_json::specs::Data::pairs_back))]
pub fn items_length(items: &Vec<Tree>) -> u64
    ensures { result ≡ saturated (size_of_items (map data_of items.now.items)) }
{
    let mut size: u64 = 0;
    for item in items {
        size = size.saturating_add(text_length(item)).saturating_add(1);
    }
    size
}

#[cycle(text_length)]
#[tactic(auto, using(spec_json::specs::TreeDepth::item_falls, spec_json::specs::TreeDepth::member_falls, spec_json::specs::Data::pairs_back))]
fn members_length(members: &Vec<Member>) -> u64
    ensures { result ≡ saturated (size_of_members (map pair_of members.now.items)) }
{
    let mut size: u64 = 0;
    for member in members {
        size = size
            .saturating_add(quoted_length(member.key.as_str()))
            .saturating_add(text_length(&member.value))
            .saturating_add(2);
    }
    size
}

/// The length of the compact text of a tree (RFC 8259), or the last value of a u64 where it is longer. Takes no memory.
#[cycle(text_length)]
#[tactic(auto, using(spec_json::specs::TreeDepth::item_falls, spec_json::specs::TreeDepth::member_falls, spec_json::specs::Data::pairs_back, crate::proofs::Lengths::list_length, crate::proofs::Lengths::object_length))]
pub fn text_length(tree: &Tree) -> u64
    ensures { result ≡ saturated (length (text_of (data_of tree.now))) }
{
    match tree {
        Tree::Null => 4,
        Tree::Truth(true) => 4,
        Tree::Truth(false) => 5,
        Tree::Whole(n) => whole_length(n),
        Tree::Text(s) => quoted_length(s.as_str()),
        Tree::List(list) => in_brackets(items_length(list.items())),
        Tree::Object(object) => in_brackets(members_length(object.members())),
    }
}
