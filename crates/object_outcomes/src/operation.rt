//! Operations of a set.

use spec_json::text::Text;
use spec_json::tree::Tree;

/// One object that a set changes (RFC 8620 section 5.3). Its id is the one that the text of the call stands for.
#[derive(Clone, Copy, Drop)]
pub enum Operation<'a> {
    /// Updates an object by a patch.
    Update {
        id: &'a Text,
        patch: &'a Tree,
        /// Whether the call also destroys the object.
        is_destroyed: bool,
        /// Whether an earlier update of the call names the same object.
        is_repeated: bool,
    },
    /// Destroys an object.
    Destroy(&'a Text),
}
