//! The field `generation`.
ghost use Rattle.std.specs.Prelude.{◌≡◌, IfErr, IfOk, Ok};
ghost use Rattle.spec_site.specs.Configuration.{generation_in, unsigned_number, unsigned_of};
ghost use Rattle.spec_json.specs.TreeData.{data_of};
ghost use Rattle.spec_site.specs.declared.field.Field.TheVariants.{Generation};
ghost use Rattle.session_doc.specs.Reports.{ReportsField};

use crate::configuration_error::{ConfigurationError, bad};
use spec_core::numbers::MAX_UNSIGNED_INT;
use spec_json::num::Num;
use spec_json::tree::Tree;
use spec_site::field::Field;

/// Which copy of the data the accounts go on from: an UnsignedInt (RFC 8620 section 1.3), 0 where the field is absent. Takes no memory.
pub(crate) fn read_generation(tree: &Tree) -> Result<u64, ConfigurationError>
    ensures ok { IfOk result (λ generation. generation_in (data_of tree.now) ≡ Ok generation) }
    ensures err { IfErr result (λ error. ReportsField Generation error (generation_in (data_of tree.now))) }
{
    let Some(value) = tree.get("generation") else {
        return Ok(0);
    };
    match unsigned_of(value) {
        Some(generation) => Ok(generation),
        None => Err(bad(Field::Generation, 0)),
    }
}

fn unsigned_of(value: &Tree) -> Option<u64>
    ensures { result ≡ unsigned_of (data_of value.now) }
{
    unsigned_number(value.as_whole()?)
}

fn unsigned_number(number: Num) -> Option<u64>
    ensures { result ≡ unsigned_number number }
{
    let number = number.get();
    if number >= 0 && number <= i128::from(MAX_UNSIGNED_INT) {
        Some(number as u64)
    } else {
        None
    }
}
