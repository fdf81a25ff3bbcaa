//! Paths, and steps along them.
ghost use Rattle.std.specs.Prelude.{◌≡◌, IfOk, map, option_map, unwrap_or};
ghost use Rattle.spec_batch.specs.References.{item_at, path_parts};
ghost use Rattle.spec_json.specs.TreeData.{data_of};
ghost use Rattle.result_refs.specs.Steps.{all_items, named_by, parts_along};

use crate::behind_sign::behind;
use patch_object::{Pointer, PointerError};
use spec_json::text::Text;
use spec_json::tree::Tree;
use std::alloc::{AllocError, Global};
use time_text::read_number;

/// A path (RFC 8620 section 3.7): empty, or a JSON Pointer in which `*` stands for each item of an array.
#[derive(Drop)]
pub(crate) struct Path {
    // The pointer behind the first `/`, where there is one.
    pointer: Option<Pointer>,
}

impl Path {
    /// Reads a path. Takes memory for its parts.
    pub(crate) fn read(alloc: Global, path: &str) -> Result<Option<Path>, AllocError>
        ensures { IfOk result (λ o. option_map parts_along o ≡ path_parts path.now) }
    {
        if path.is_empty() {
            return Ok(Some(Path { pointer: None }));
        }
        let Some(pointer) = behind(path, '/') else {
            return Ok(None);
        };
        match Pointer::read(alloc, &Text::from_str(alloc, pointer)?) {
            Ok(pointer) => Ok(Some(Path {
                pointer: Some(pointer),
            })),
            Err(PointerError::BadEscape) => Ok(None),
            Err(PointerError::NoMemory) => Err(AllocError),
        }
    }

    /// The parts, in order. Takes no memory.
    pub(crate) fn parts(&self) -> &[Text]
        ensures { result.now ≡ parts_along self.now }
    {
        match &self.pointer {
            Some(pointer) => pointer.parts(),
            None => &[],
        }
    }
}

/// The items of an array, where the part is `*`. Takes no memory.
#[tactic(auto, using(spec_json::specs::Data::items_back))]
pub(crate) fn all_items<'a>(value: &'a Tree, part: &Text) -> Option<&'a [Tree]>
    ensures { option_map (λ s. map data_of s.now) result ≡ all_items part.now (data_of value.now) }
{
    match value {
        Tree::List(list) if part.as_str() == "*" => Some(list.items()),
        _ => None,
    }
}

/// The member or the item that a part names. Takes no memory.
#[tactic(auto, using(spec_json::specs::Data::items_back, spec_json::specs::Data::pairs_back))]
pub(crate) fn named_by<'a>(value: &'a Tree, part: &Text) -> Option<&'a Tree>
    ensures { option_map (λ t. data_of t.now) result ≡ named_by part.now (data_of value.now) }
{
    match value {
        Tree::Object(object) => object.get(part.as_str()),
        Tree::List(list) => item_at(list.items(), part),
        _ => None,
    }
}

// The item whose place, from 0, a part writes out.
fn item_at<'a>(items: &'a [Tree], part: &Text) -> Option<&'a Tree>
    ensures { option_map (λ t. data_of t.now) result ≡ item_at part.now (map data_of items.now) }
{
    let place = read_number(part.as_str().as_bytes())?;
    items.get(place as usize)
}
