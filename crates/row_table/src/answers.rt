//! The values that answers are made of.
ghost use Rattle.std.specs.Prelude.{◌≡◌, pos};
ghost use Rattle.spec_json.specs.Data.{whole};
ghost use Rattle.spec_json.specs.TreeData.{data_of};

use json_edge::write::tree_text;
use spec_json::num::Num;
use spec_json::text::Text;
use spec_json::tree::{Tree, TreeList};
use spec_time::wall::Wall;
use std::alloc::{AllocError, Global};
use std::fmt::Write;
use time_text::{is_in_years, local_text};

/// A number.
pub fn whole(number: u64) -> Tree
    ensures { data_of result ≡ whole (pos number) }
{
    Tree::Whole(Num::new(i128::from(number)))
}

/// A text. Takes memory for it.
pub fn word(alloc: Global, word: &str) -> Result<Tree, AllocError> {
    Ok(Tree::Text(Text::from_str(alloc, word)?))
}

/// A list of numbers. Takes memory for it.
pub fn list_of(alloc: Global, numbers: &[u64]) -> Result<Tree, AllocError> {
    let mut items = Vec::with_capacity(alloc, numbers.len())?;
    for number in numbers {
        items.push(whole(*number))?;
    }
    Ok(Tree::List(TreeList::new(items)))
}

/// A list of texts. Takes memory for it.
pub fn texts_of(alloc: Global, texts: &[Text]) -> Result<Tree, AllocError> {
    let mut items = Vec::with_capacity(alloc, texts.len())?;
    for text in texts {
        items.push(Tree::Text(text.copy()?))?;
    }
    Ok(Tree::List(TreeList::new(items)))
}

/// A wall second as a LocalDateTime, or that it has none. Takes memory for it.
pub fn local_time(alloc: Global, wall: Wall) -> Result<Tree, AllocError> {
    if is_in_years(wall) {
        Ok(Tree::Text(local_text(alloc, wall)?))
    } else {
        word(alloc, "outside the years 0 to 9999")
    }
}

/// Puts a wall second behind a text, as a LocalDateTime, or as its number where it has none. Takes memory for it.
pub fn push_wall(alloc: Global, text: &mut String, wall: Wall) -> Result<(), AllocError> {
    if is_in_years(wall) {
        text.push_str(local_text(alloc, wall)?.as_str())
    } else {
        write!(text, "{}", wall.seconds())
    }
}

/// The compact text of a value. Takes memory for it.
pub fn text_of(alloc: Global, tree: &Tree) -> Result<String, AllocError> {
    String::from_utf8_lossy(alloc, &tree_text(alloc, tree)?)
}
