//! The ids of objects.
ghost use Rattle.std.specs.Prelude.{◌≡◌, IfOk};
ghost use Rattle.spec_history.specs.ObjectId.{id_text, letter, object_number};

use crate::number::read_number;
use spec_history::entry::Kind;
use spec_json::text::Text;
use std::alloc::{AllocError, Global};

/// The number of the object that an id names: the letter of its kind, `C` or `E`, and a number above 0.
///
/// None where the text is anything else. Takes no memory.
pub fn read_object_id(kind: Kind, id: &[u8]) -> Option<u64>
    ensures { result ≡ object_number kind id.now }
{
    match id {
        [first, digits @ ..] if *first == letter(kind) => read_number(digits).filter(|n| *n > 0),
        _ => None,
    }
}

/// The id of the object of a number: the letter of its kind and the number.
pub fn object_id_text(alloc: Global, kind: Kind, number: u64) -> Result<Text, AllocError>
    ensures { IfOk result (λ t. t ≡ id_text kind number) }
{
    let id = match kind {
        Kind::Calendar => format!(in alloc; "C{number}")?,
        Kind::Event => format!(in alloc; "E{number}")?,
    };
    Text::from_string(id)
}

fn letter(kind: Kind) -> u8
    ensures { result ≡ letter kind }
{
    match kind {
        Kind::Calendar => b'C',
        Kind::Event => b'E',
    }
}
