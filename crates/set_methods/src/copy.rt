//! Copies of changes.
ghost use Rattle.std.specs.Prelude.{◌≡◌, IfOk};

use spec_history::entry::Change;
use std::alloc::AllocError;

/// A copy of a change with its object. Takes memory for it.
pub fn copy_of(change: &Change) -> Result<Change, AllocError>
    ensures { IfOk result (λ c. c ≡ change.now) }
{
    let object = match &change.object {
        Some(object) => Some(object.copy()?),
        None => None,
    };
    Ok(Change {
        kind: change.kind,
        id: change.id,
        object,
    })
}
