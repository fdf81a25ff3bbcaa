//! The values of properties: tests of them, and copies of texts.
ghost use Rattle.std.specs.Prelude.{◌≡◌, IfOk, map};
ghost use Rattle.spec_events.specs.Values.{is_one_of, is_true};
ghost use Rattle.spec_json.specs.Parts.{text_at};
ghost use Rattle.spec_json.specs.TreeData.{data_of};

use property_table::names::has_name;
use spec_json::text::Text;
use spec_json::tree::Tree;
use std::alloc::AllocError;

/// Whether this is `true`. Takes no memory.
pub fn is_true(value: &Tree) -> bool
    ensures { result ≡ is_true (data_of value.now) }
{
    match value {
        Tree::Truth(truth) => *truth,
        _ => false,
    }
}

/// Whether this is one of these words. Takes no memory.
pub fn is_one_of(value: &Tree, words: &[&str]) -> bool
    ensures { result ≡ is_one_of (map (λ word. word.now) words.now) (data_of value.now) }
{
    match value {
        Tree::Text(text) => has_name(words, text.as_str()),
        _ => false,
    }
}

/// A copy of the text at a key, where the value is an object that has one there.
pub fn copy_at(tree: &Tree, key: &str) -> Result<Option<Text>, AllocError>
    ensures { IfOk result (λ t. t ≡ text_at key.now (data_of tree.now)) }
{
    match tree.text_at(key) {
        Some(text) => Ok(Some(text.copy()?)),
        None => Ok(None),
    }
}
