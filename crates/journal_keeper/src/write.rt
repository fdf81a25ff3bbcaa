//! The texts of entries.
ghost use Rattle.std.specs.Prelude.{◌≡◌, IfOk, pos};
ghost use Rattle.journal_keeper.specs.EntryText.{IsEntryText, IsKeepable, entry_by, entry_data, entry_text, kind_name, object_data};
ghost use Rattle.spec_json.specs.TreeData.{data_of};

use json_edge::write::tree_text;
use spec_history::entry::{Change, Entry, Kind};
use spec_history::stamp::Stamp;
use spec_json::num::Num;
use spec_json::text::Text;
use spec_json::tree::Tree;
use std::alloc::{AllocError, Global};

/// The compact text of an entry: an object with `author`, `id`, `kind`, `moment`, `object` (null for a removal), `part` and `turn`.
///
/// Takes memory for the text, and until it returns for a copy of the object.
pub fn entry_text(alloc: Global, entry: &Entry) -> Result<Vec<u8>, AllocError>
    ensures text { IfOk result (λ v. v.items ≡ entry_text entry.now) }
    ensures reads_back { IfOk result (λ v. IsKeepable entry.now → IsEntryText entry.now v.items) }
{
    let stamp = Stamp {
        author: entry.author,
        turn: entry.turn,
        moment: entry.moment,
    };
    change_text(alloc, &stamp, entry.part, &entry.change)
}

/// The text of the entry that a change of a call becomes, at this place among the call's entries.
///
/// Takes memory as `entry_text` does.
#[tactic(auto, using(crate::proofs::DepthLemmas::entry_depth))]
pub fn change_text(
    alloc: Global,
    stamp: &Stamp,
    part: u32,
    change: &Change,
) -> Result<Vec<u8>, AllocError>
    ensures text { IfOk result (λ v. v.items ≡ entry_text (entry_by stamp.now part change.now)) }
    ensures reads_back { IfOk result (λ v. IsKeepable (entry_by stamp.now part change.now) → IsEntryText (entry_by stamp.now part change.now) v.items) }
{
    let tree = entry_tree(alloc, stamp, part, change)?;
    tree_text(alloc, &tree)
}

fn entry_tree(alloc: Global, stamp: &Stamp, part: u32, change: &Change) -> Result<Tree, AllocError>
    ensures { IfOk result (λ t. data_of t ≡ entry_data (entry_by stamp.now part change.now)) }
{
    let members = vec![in alloc;
        ("author", number(u64::from(stamp.author))),
        ("id", number(change.id)),
        (
            "kind",
            Tree::Text(Text::from_str(alloc, kind_name(change.kind))?)
        ),
        (
            "moment",
            Tree::Whole(Num::new(i128::from(stamp.moment.seconds())))
        ),
        ("object", object_tree(&change.object)?),
        ("part", number(u64::from(part))),
        ("turn", number(stamp.turn)),
    ]?;
    Tree::object(alloc, members)
}

fn number(n: u64) -> Tree
    ensures { result ≡ Tree.Whole (pos n) }
{
    Tree::Whole(Num::new(i128::from(n)))
}

fn kind_name(kind: Kind) -> &'static str
    ensures { result.now ≡ kind_name kind }
{
    match kind {
        Kind::Calendar => "calendar",
        Kind::Event => "event",
    }
}

fn object_tree(object: &Option<Tree>) -> Result<Tree, AllocError>
    ensures { IfOk result (λ t. data_of t ≡ object_data object.now) }
{
    match object {
        Some(tree) => tree.copy(),
        None => Ok(Tree::Null),
    }
}
