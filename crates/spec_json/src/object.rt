//! Objects of keys that stand in the code.
ghost use Rattle.std.specs.Prelude.{◌≡◌, IfOk, map};
ghost use Rattle.spec_json.specs.ObjectKeys.{HasOrderedKeys};
ghost use Rattle.spec_json.specs.TreeData.{keyed};
ghost use Rattle.spec_json.specs.declared.tree.Tree.TheVariants.{Object};

use crate::text::Text;
use crate::tree::{Member, Tree, TreeObject};
use std::alloc::{AllocError, Global};

impl Tree {
    /// An object of these keys with their values. The keys are distinct and in byte order.
    pub fn object(alloc: Global, members: Vec<(&str, Tree)>) -> Result<Tree, AllocError>
        requires { HasOrderedKeys (map keyed members.items) }
        ensures { IfOk result (λ t. t ≡ Object (map keyed members.entry.items)) }
    {
        let mut all = Vec::with_capacity(alloc, members.len())?;
        for (key, value) in members {
            let key = Text::from_str(alloc, key)?;
            all.push(Member { key, value })?;
        }
        Ok(Tree::Object(TreeObject::new(all)))
    }
}
