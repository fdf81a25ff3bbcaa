//! Rows of windows.
ghost use Rattle.spec_queries.specs.Windows.{IsInMemory};

use query_order::window::window;
use row_table::answers::list_of;
use row_table::members::{count_at, signed_at};
use spec_json::tree::Tree;
use spec_queries::window::Anchor;
use std::alloc::{AllocError, Global};

/// The first place of the window and the one behind its last, null where there is no window.
pub fn window_of(alloc: Global, asked: &Tree) -> Result<Option<Tree>, AllocError> {
    let cut = window(
        count_at(asked, "length"),
        signed_at(asked, "position"),
        anchor_in(asked.get("anchor")),
        signed_at(asked, "anchorOffset"),
        count_at(asked, "limit"),
    );
    match cut {
        Some(cut) => Ok(Some(list_of(alloc, &[cut.from, cut.to])?)),
        None => Ok(Some(Tree::Null)),
    }
}

/// The place of the anchor, or that it is missing where it has no place.
fn anchor_in(anchor: Option<&Tree>) -> Anchor
    ensures { IsInMemory result }
{
    match anchor {
        None => Anchor::None,
        Some(Tree::Whole(place)) => anchor_at(place.get()),
        Some(_) => Anchor::Missing,
    }
}

fn anchor_at(place: i128) -> Anchor
    ensures { IsInMemory result }
{
    if 0 <= place && place < 1 << 63 {
        Anchor::At(place as u64)
    } else {
        Anchor::Missing
    }
}
