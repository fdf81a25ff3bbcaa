//! What a JSON text is read as.
ghost use Rattle.std.specs.Prelude.{◌≡◌, IfOk, IsErr, codes};
ghost use Rattle.json_edge.specs.declared.error.ReadError.TheVariants.{NotJson, NotWhole, NoMemory};

use json_edge::read::{ReadError, read_tree};
use json_edge::write::tree_text;
use std::alloc::{AllocError, Global};

/// How a table says that a text has no tree. Takes no memory.
fn refusal(error: ReadError) -> Result<&'static str, AllocError>
    ensures not_json { error ≡ NotJson → IfOk result (λ word. word.now ≡ codes "no JSON") }
    ensures not_whole { error ≡ NotWhole → IfOk result (λ word. word.now ≡ codes "not whole") }
    ensures no_memory { error ≡ NoMemory → IsErr result }
{
    match error {
        ReadError::NotJson => Ok("no JSON"),
        ReadError::NotWhole => Ok("not whole"),
        ReadError::NoMemory => Err(AllocError),
    }
}

/// The compact text of the tree that bytes are read as, or how a table says that they have none. Takes memory for the tree and the text.
pub fn outcome(alloc: Global, bytes: &[u8]) -> Result<Vec<u8>, AllocError> {
    match read_tree(alloc, bytes) {
        Ok(tree) => tree_text(alloc, &tree),
        Err(error) => refusal(error)?.as_bytes().to_vec(alloc),
    }
}
