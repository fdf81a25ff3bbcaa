//! Values of a kind of JSON, read in trees and moved out of them.
ghost use Rattle.std.specs.Prelude.{◌≡◌, IfOk, map, option_and_then, option_map};
ghost use Rattle.spec_json.specs.Data.{lookup};
ghost use Rattle.spec_json.specs.ObjectKeys.{HasOrderedKeys};
ghost use Rattle.spec_json.specs.Parts.{all_some, as_list, as_object, as_text, as_truth, as_whole, is_null, list_at, members_in, number_at, object_at, text_at, truth_at};
ghost use Rattle.spec_json.specs.TreeData.{data_of, pair_of};

use super::{Member, Tree, TreeList, TreeObject};
use crate::lists::Texts;
use crate::num::Num;
use crate::text::Text;
use std::alloc::{AllocError, Global};

impl Tree {
    /// Whether this is `null`. Takes no memory.
    pub fn is_null(&self) -> bool
        ensures { result ≡ is_null (data_of self.now) }
    {
        matches!(self, Tree::Null)
    }

    /// The truth that this is, where it is one. Takes no memory.
    pub fn as_truth(&self) -> Option<bool>
        ensures { result ≡ as_truth (data_of self.now) }
    {
        match self {
            Tree::Truth(truth) => Some(*truth),
            _ => None,
        }
    }

    /// The number that this is, where it is one. Takes no memory.
    pub fn as_whole(&self) -> Option<Num>
        ensures { result ≡ as_whole (data_of self.now) }
    {
        match self {
            Tree::Whole(number) => Some(*number),
            _ => None,
        }
    }

    /// The text that this is, where it is one. Takes no memory.
    pub fn as_text(&self) -> Option<&Text>
        ensures { option_map (λ text. text.now) result ≡ as_text (data_of self.now) }
    {
        match self {
            Tree::Text(text) => Some(text),
            _ => None,
        }
    }

    /// The items of the list that this is, where it is one. Takes no memory.
    #[tactic(auto, using(crate::specs::Data::items_back))]
    pub fn as_list(&self) -> Option<&[Tree]>
        ensures { option_map (λ items. map data_of items.now) result ≡ as_list (data_of self.now) }
    {
        match self {
            Tree::List(list) => Some(list.items().as_slice()),
            _ => None,
        }
    }

    /// The object that this is, where it is one. Takes no memory.
    #[tactic(auto, using(crate::specs::Data::pairs_back))]
    pub fn as_object(&self) -> Option<&TreeObject>
        ensures { option_map (λ object. object.now) result ≡ as_object (data_of self.now) }
    {
        match self {
            Tree::Object(object) => Some(object),
            _ => None,
        }
    }

    /// The members of an object, and none of anything else. Takes no memory.
    #[tactic(auto, using(crate::specs::Data::pairs_back))]
    pub fn members_in(&self) -> &[Member]
        ensures value { map pair_of result.now ≡ members_in (data_of self.now) }
        ensures ordered { HasOrderedKeys (members_in (data_of self.now)) }
    {
        match self {
            Tree::Object(object) => object.members(),
            _ => &[],
        }
    }

    /// The truth at a key, where this is an object that has one there. Takes no memory.
    pub fn truth_at(&self, key: &str) -> Option<bool>
        ensures { result ≡ truth_at key.now (data_of self.now) }
    {
        self.get(key)?.as_truth()
    }

    /// The number at a key, where this is an object that has one there. Takes no memory.
    pub fn number_at(&self, key: &str) -> Option<Num>
        ensures { result ≡ number_at key.now (data_of self.now) }
    {
        self.get(key)?.as_whole()
    }

    /// The text at a key, where this is an object that has one there. Takes no memory.
    pub fn text_at(&self, key: &str) -> Option<&Text>
        ensures { option_map (λ text. text.now) result ≡ text_at key.now (data_of self.now) }
    {
        self.get(key)?.as_text()
    }

    /// The items of the list at a key, where this is an object that has one there. Takes no memory.
    pub fn list_at(&self, key: &str) -> Option<&[Tree]>
        ensures { option_map (λ items. map data_of items.now) result ≡ list_at key.now (data_of self.now) }
    {
        self.get(key)?.as_list()
    }

    /// The object at a key, where this is an object that has one there. Takes no memory.
    pub fn object_at(&self, key: &str) -> Option<&TreeObject>
        ensures { option_map (λ object. object.now) result ≡ object_at key.now (data_of self.now) }
    {
        self.get(key)?.as_object()
    }

    /// Gives up the text that this is, where it is one. Takes no memory.
    pub fn into_text(self) -> Option<Text>
        ensures { result ≡ as_text (data_of self) }
    {
        match self {
            Tree::Text(text) => Some(text),
            _ => None,
        }
    }

    /// Gives up the list that this is, where it is one. Takes no memory.
    #[tactic(auto, using(crate::specs::Data::items_back))]
    pub fn into_list(self) -> Option<TreeList>
        ensures { result ≡ as_list (data_of self) }
    {
        match self {
            Tree::List(list) => Some(list),
            _ => None,
        }
    }

    /// Gives up the object that this is, where it is one. Takes no memory.
    #[tactic(auto, using(crate::specs::Data::pairs_back))]
    pub fn into_object(self) -> Option<TreeObject>
        ensures { result ≡ as_object (data_of self) }
    {
        match self {
            Tree::Object(object) => Some(object),
            _ => None,
        }
    }

    /// Gives up the object that this is, or one without members where it is none. Takes no memory.
    pub fn into_object_or_empty(self, alloc: Global) -> TreeObject
        ensures { result ≡ members_in (data_of self) }
    {
        match self.into_object() {
            Some(object) => object,
            None => TreeObject::new(Vec::new(alloc)),
        }
    }
}

impl TreeList {
    /// Gives up all texts of the list, where each of its items is one. Takes memory for the list, and copies no text.
    #[tactic(auto, using(crate::proofs::Appending::push_option))]
    pub fn into_texts(self, alloc: Global) -> Result<Option<Texts>, AllocError>
        ensures { IfOk result (λ o. o ≡ all_some as_text self) }
    {
        let mut texts = Vec::with_capacity(alloc, self.items.len())?;
        for item in self.items {
            match item.into_text() {
                Some(text) => texts.push(text)?,
                None => return Ok(None),
            }
        }
        Ok(Some(Texts::new(texts)))
    }
}

impl TreeObject {
    /// The truth at a key, where there is one. Takes no memory.
    pub fn truth_at(&self, key: &str) -> Option<bool>
        ensures { result ≡ option_and_then as_truth (lookup key.now self.now) }
    {
        self.get(key)?.as_truth()
    }

    /// The number at a key, where there is one. Takes no memory.
    pub fn number_at(&self, key: &str) -> Option<Num>
        ensures { result ≡ option_and_then as_whole (lookup key.now self.now) }
    {
        self.get(key)?.as_whole()
    }

    /// The text at a key, where there is one. Takes no memory.
    pub fn text_at(&self, key: &str) -> Option<&Text>
        ensures { option_map (λ text. text.now) result ≡ option_and_then as_text (lookup key.now self.now) }
    {
        self.get(key)?.as_text()
    }

    /// The items of the list at a key, where there is one. Takes no memory.
    pub fn list_at(&self, key: &str) -> Option<&[Tree]>
        ensures { option_map (λ items. map data_of items.now) result ≡ option_and_then as_list (lookup key.now self.now) }
    {
        self.get(key)?.as_list()
    }

    /// The object at a key, where there is one. Takes no memory.
    pub fn object_at(&self, key: &str) -> Option<&TreeObject>
        ensures { option_map (λ object. object.now) result ≡ option_and_then as_object (lookup key.now self.now) }
    {
        self.get(key)?.as_object()
    }
}
