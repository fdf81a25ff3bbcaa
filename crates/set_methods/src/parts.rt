//! The parts of the response to a set.
ghost use Rattle.std.specs.Prelude.{◌≡◌, IfOk, map};
ghost use Rattle.cal_model.specs.SetReply.{list_or_null, object_or_null};
ghost use Rattle.spec_json.specs.TreeData.{data_of, pair_of};

use object_outcomes::objects::object_of;
use spec_json::tree::{Member, Tree, TreeList};
use std::alloc::{AllocError, Global};

/// An object of these members, which may stand in any order, or null where there are none.
pub(crate) fn object_or_null(alloc: Global, members: Vec<Member>) -> Result<Tree, AllocError>
    ensures { IfOk result (λ t. data_of t ≡ object_or_null (map pair_of members.items)) }
{
    if members.is_empty() {
        return Ok(Tree::Null);
    }
    Ok(Tree::Object(object_of(alloc, members)?))
}

/// A list of these, or null where there are none. Takes no memory.
pub(crate) fn list_or_null(items: Vec<Tree>) -> Tree
    ensures { data_of result ≡ list_or_null (map data_of items.items) }
{
    if items.is_empty() {
        return Tree::Null;
    }
    Tree::List(TreeList::new(items))
}
