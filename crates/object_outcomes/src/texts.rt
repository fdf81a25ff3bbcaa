//! Lists of texts.
ghost use Rattle.std.specs.Prelude.{◌≡◌, IfOk, map};
ghost use Rattle.spec_json.specs.Data.{items_of, list, text};
ghost use Rattle.spec_json.specs.TreeData.{data_of};

use spec_json::text::Text;
use spec_json::tree::{Tree, TreeList};
use std::alloc::{AllocError, Global};

/// A list of these texts. Takes memory for the list, and copies no text.
pub fn text_list(alloc: Global, texts: Vec<Text>) -> Result<Tree, AllocError>
    ensures { IfOk result (λ t. data_of t ≡ list (items_of (map text texts.items))) }
{
    let mut trees = Vec::with_capacity(alloc, texts.len())?;
    for text in texts {
        trees.push(Tree::Text(text))?;
    }
    Ok(Tree::List(TreeList::new(trees)))
}

/// Copies of these texts.
pub fn copies(alloc: Global, texts: &[Text]) -> Result<Vec<Text>, AllocError>
    ensures { IfOk result (λ v. v.items ≡ texts.now) }
{
    let mut copies = Vec::with_capacity(alloc, texts.len())?;
    for text in texts {
        copies.push(text.copy()?)?;
    }
    Ok(copies)
}
