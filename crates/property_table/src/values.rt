//! Tests of values that more than one table has.
ghost use Rattle.std.specs.Prelude.{◌≡◌};
ghost use Rattle.spec_core.specs.Names.{is_name};
ghost use Rattle.spec_json.specs.TreeData.{data_of};
ghost use Rattle.property_table.specs.Values.{is_text, is_text_that, is_truth, is_unsigned_int};

use spec_core::names;
use spec_core::numbers::MAX_UNSIGNED_INT;
use spec_json::tree::Tree;

/// Whether this is a text. Takes no memory.
pub fn is_text(value: &Tree) -> bool
    ensures { result ≡ is_text (data_of value.now) }
{
    value.as_text().is_some()
}

/// Whether this is a text of 1 to 255 bytes. Takes no memory.
pub fn is_name(value: &Tree) -> bool
    ensures { result ≡ is_text_that is_name (data_of value.now) }
{
    match value {
        Tree::Text(text) => names::is_name(text.as_str()),
        _ => false,
    }
}

/// Whether this is `true` or `false`. Takes no memory.
pub fn is_truth(value: &Tree) -> bool
    ensures { result ≡ is_truth (data_of value.now) }
{
    value.as_truth().is_some()
}

/// Whether this is an UnsignedInt, a whole number from 0 to 2^53 - 1 (RFC 8620 section 1.3). Takes no memory.
pub fn is_unsigned_int(value: &Tree) -> bool
    ensures { result ≡ is_unsigned_int (data_of value.now) }
{
    match value {
        Tree::Whole(number) => { 0 <= number.get() && number.get() <= i128::from(MAX_UNSIGNED_INT) }
        _ => false,
    }
}
