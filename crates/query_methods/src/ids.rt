//! Numbers and ids as replies tell them.
ghost use Rattle.std.specs.Prelude.{◌≡◌, IfOk, pos};
ghost use Rattle.spec_json.specs.TreeData.{data_of};
ghost use Rattle.spec_json.specs.declared.tree.Tree.TheVariants.{Whole as whole_tree};
ghost use Rattle.spec_queries.specs.States.{id_list};

use spec_history::entry::Kind;
use spec_json::num::Num;
use spec_json::tree::{Tree, TreeList};
use std::alloc::{AllocError, Global};
use time_text::object_id_text;

/// A number. Takes no memory.
pub(crate) fn number_tree(number: u64) -> Tree
    ensures { result ≡ whole_tree (pos number) }
{
    Tree::Whole(Num::new(number as i128))
}

/// The ids of objects of a kind.
pub fn id_list(alloc: Global, kind: Kind, numbers: &[u64]) -> Result<Tree, AllocError>
    ensures { IfOk result (λ t. data_of t ≡ id_list kind numbers.now) }
{
    let mut items = Vec::with_capacity(alloc, numbers.len())?;
    for number in numbers {
        items.push(Tree::Text(object_id_text(alloc, kind, *number)?))?;
    }
    Ok(Tree::List(TreeList::new(items)))
}
