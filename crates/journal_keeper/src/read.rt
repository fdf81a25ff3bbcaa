//! Entries from their texts.
ghost use Rattle.std.specs.Prelude.{◌≡◌, ◌≤◌, ◌^◌, ◌<◌, Err, IfErr, IfOk, IfSome, Some, codes, option_map, pos};
ghost use Rattle.journal_keeper.specs.EntryParts.{kind_in, kind_named, small, small_at};
ghost use Rattle.journal_keeper.specs.EntryText.{IsEntryText, IsKeepable, IsNoEntryText, IsObjectTree, entry_data, entry_text, object_data};
ghost use Rattle.spec_history.specs.declared.entry.Entry.{Entry as AnyEntry};
ghost use Rattle.spec_json.specs.Data.{depth};
ghost use Rattle.spec_json.specs.TreeData.{data_of};

use crate::write::entry_text;
use json_edge::error::ReadError;
use json_edge::read::read_tree;
use spec_history::entry::{Change, Entry, Kind};
use spec_json::num::Num;
use spec_json::text::Text;
use spec_json::tree::Tree;
use spec_json::tree::depth::nests_within;
use spec_time::moment::{LAST_MOMENT, Moment};
use std::alloc::{AllocError, Global};

/// How deep an object may nest.
const MAX_DEPTH: u32 = 120;

/// The greatest u32.
const MAX_U32: u64 = 4_294_967_295;

/// The greatest number of an object.
const MAX_ID: u64 = 1 << 40;

/// The most turns of an author.
const MAX_TURN: u64 = 1 << 40;

/// Why bytes weren't read as an entry.
#[derive(Clone, Copy, Debug, PartialEq, Eq)]
pub enum TextError {
    /// They are no entry's text.
    BadText,
    /// Memory was wanted.
    NoMemory,
}

impl From<AllocError> for TextError {
    ghost use Rattle.std.specs.Prelude.{◌≡◌};
    ghost use Rattle.journal_keeper.specs.declared.read.TextError.TheVariants.{NoMemory};

    ghost from_gives = { λ _ e. e ≡ NoMemory };

    fn from(_: AllocError) -> TextError {
        TextError::NoMemory
    }
}

/// The entry whose text the bytes are, to the last byte.
pub fn read_entry(alloc: Global, bytes: &[u8]) -> Result<Entry, TextError>
    ensures text { IfOk result (λ e. IsEntryText e bytes.now) }
    ensures bad { result ≡ Err TextError.BadText → IsNoEntryText bytes.now }
{
    let tree = match read_tree(alloc, bytes) {
        Ok(tree) => tree,
        Err(ReadError::NoMemory) => return Err(TextError::NoMemory),
        Err(_) => return Err(TextError::BadText),
    };
    let Some(entry) = entry_of(tree) else {
        return Err(TextError::BadText);
    };
    let text = entry_text(alloc, &entry)?;
    if text.as_slice() == bytes {
        Ok(entry)
    } else {
        Err(TextError::BadText)
    }
}

/// The numbers of an entry.
#[derive(Clone, Copy, Drop)]
struct Numbers {
    author: u32,
    id: u64,
    part: u32,
    turn: u64,
}

// The entry that an object tells, whatever else it has.
fn entry_of(tree: Tree) -> Option<Entry>
    ensures keepable { IfSome result IsKeepable }
    ensures found { (e : AnyEntry) → IsKeepable e → data_of tree ≡ entry_data e → result ≡ Some e }
{
    let numbers = numbers_of(&tree)?;
    let kind = kind_of(&tree)?;
    let moment = moment_of(&tree)?;
    let object = object_of(tree)?;
    Some(Entry {
        author: numbers.author,
        turn: numbers.turn,
        part: numbers.part,
        moment,
        change: Change {
            kind,
            id: numbers.id,
            object,
        },
    })
}

#[tactic(auto, using(crate::proofs::Finding::author_found, crate::proofs::Finding::id_found, crate::proofs::Finding::part_found, crate::proofs::Finding::turn_found))]
fn numbers_of(tree: &Tree) -> Option<Numbers>
    ensures id { IfSome result (λ n. n.id ≤ 2 ^ 40) }
    ensures turn { IfSome result (λ n. n.turn ≤ 2 ^ 40) }
    ensures found { (e : AnyEntry) → IsKeepable e → data_of tree.now ≡ entry_data e → result ≡ Some (record { author = e.author; id = e.change.id; part = e.part; turn = e.turn }) }
{
    let author = small_at(tree, "author", MAX_U32)?;
    let id = small_at(tree, "id", MAX_ID)?;
    let part = small_at(tree, "part", MAX_U32)?;
    let turn = small_at(tree, "turn", MAX_TURN)?;
    Some(Numbers {
        author: author as u32,
        id,
        part: part as u32,
        turn,
    })
}

// The number at a key, where it is from 0 to this.
fn small_at(tree: &Tree, key: &str, most: u64) -> Option<u64>
    ensures is { result ≡ small_at most key.now (data_of tree.now) }
    ensures most { IfSome result (λ n. n ≤ most) }
{
    small(tree.number_at(key)?, most)
}

fn small(number: Num, most: u64) -> Option<u64>
    ensures is { result ≡ small most number }
    ensures most { IfSome result (λ n. n ≤ most) }
{
    let number = number.get();
    if number >= 0 && number <= i128::from(most) {
        Some(number as u64)
    } else {
        None
    }
}

#[tactic(auto, using(crate::proofs::Finding::kind_found))]
fn kind_of(tree: &Tree) -> Option<Kind>
    ensures found { (e : AnyEntry) → IsKeepable e → data_of tree.now ≡ entry_data e → result ≡ Some e.change.kind }
{
    kind_in(tree)
}

fn kind_in(tree: &Tree) -> Option<Kind>
    ensures { result ≡ kind_in (data_of tree.now) }
{
    kind_named(tree.text_at("kind")?)
}

fn kind_named(name: &Text) -> Option<Kind>
    ensures { result ≡ kind_named name.now }
{
    if name.as_str() == "calendar" {
        Some(Kind::Calendar)
    } else if name.as_str() == "event" {
        Some(Kind::Event)
    } else {
        None
    }
}

#[tactic(auto, using(crate::proofs::Finding::moment_found))]
fn moment_of(tree: &Tree) -> Option<Moment>
    ensures found { (e : AnyEntry) → IsKeepable e → data_of tree.now ≡ entry_data e → result ≡ Some e.moment }
{
    let seconds = tree.number_at("moment")?.get();
    if seconds >= 0 && seconds <= i128::from(LAST_MOMENT) {
        Some(Moment::new(seconds as i64))
    } else {
        None
    }
}

#[tactic(auto, using(crate::proofs::Finding::object_found))]
fn object_of(tree: Tree) -> Option<Option<Tree>>
    ensures object { IfSome result (λ o. IsObjectTree o) }
    ensures shallow { IfSome result (λ o. depth (object_data o) ≤ 120) }
    ensures found { (e : AnyEntry) → IsKeepable e → data_of tree ≡ entry_data e → result ≡ Some e.change.object }
{
    object_in(tree.into_value("object")?)
}

#[tactic(auto, using(crate::proofs::Finding::null_back, crate::proofs::Finding::object_back))]
fn object_in(value: Tree) -> Option<Option<Tree>>
    ensures object { IfSome result (λ o. IsObjectTree o) }
    ensures shallow { IfSome result (λ o. depth (object_data o) ≤ 120) }
    ensures found { (o : _) → IsObjectTree o → depth (object_data o) ≤ 120 → data_of value ≡ object_data o → result ≡ Some o }
{
    match value {
        Tree::Null => Some(None),
        Tree::Object(members) => {
            let object = Tree::Object(members);
            if nests_within(&object, MAX_DEPTH) {
                Some(Some(object))
            } else {
                None
            }
        }
        _ => None,
    }
}
