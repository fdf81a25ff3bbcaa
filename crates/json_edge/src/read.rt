//! Trees from JSON texts, token by token.
ghost use Rattle.std.specs.Prelude.{◌≡◌, ◌≢◌, ◌<◌, [], length, Some, None, Err, IfOk, IfErr, OnOk, map, option_map};
ghost use Rattle.json.specs.Json.{value as json_value, items, members};
ghost use Rattle.serde_json.specs.Read.{converted, read as read_text};
ghost use Rattle.spec_json.specs.Json.{reading, whole_of, not_json, not_whole, value};
ghost use Rattle.spec_json.specs.TreeData.{data_of};
ghost use Rattle.json_edge.specs.declared.error.ReadError.TheVariants.{NotJson, NotWhole, NoMemory};
ghost use Rattle.json_edge.specs.Readings.{value_read, items_read, members_read, one_item, and_items, list_data};
ghost use Rattle.json_edge.specs.FoundData.{found_of, all_data};

pub use crate::error::ReadError;
use crate::number::number;
use crate::object::{FoundMember, object};
use json::{Reader, Scratch, Token};
use spec_json::text::Text;
use spec_json::tree::{Tree, TreeList};
use std::alloc::Global;

/// How deep arrays and objects may nest, as in `serde_json`.
const MAX_DEPTH: usize = 127;

/// A list of so many items keeps the block in which it grew.
const LONG: usize = 4096;

/// Up to so many members are gathered without a block that grows. Allocators keep small blocks that grew out of use at hand, and few are asked for again.
const FEW_MEMBERS: usize = 16;

/// Reads the value that a JSON text is, as `serde_json` reads it (RFC 8259, RFC 8620 section 1.5).
///
/// An object has its members in byte order of their keys. Of a key that comes twice the last value counts, and a number
/// that isn't whole in an earlier value of it doesn't matter. Takes memory for the tree, and until it returns for as many
/// bytes as the text has and for the items and members of the arrays and objects that are open.
#[tactic(auto, using(crate::proofs::Reading::reading_text, crate::proofs::Reading::reading_no_text))]
pub fn read_tree(alloc: Global, bytes: &[u8]) -> Result<Tree, ReadError>
    ensures ok { IfOk result (λ t. reading bytes.now ≡ value (data_of t)) }
    ensures not_json { result ≡ Err NotJson → reading bytes.now ≡ not_json }
    ensures not_whole { result ≡ Err NotWhole → reading bytes.now ≡ not_whole }
{
    match simdutf8::compat::from_utf8(bytes) {
        Ok(text) => match read_all(alloc, text)? {
            Some(tree) => Ok(tree),
            None => Err(ReadError::NotWhole),
        },
        Err(_) => Err(ReadError::NotJson),
    }
}

fn read_all(alloc: Global, text: &str) -> Result<Option<Tree>, ReadError>
    ensures ok { IfOk result (λ t. option_map whole_of (read_text text.now) ≡ Some (option_map data_of t)) }
    ensures refused { result ≡ Err NotJson → option_map whole_of (read_text text.now) ≡ None }
    ensures other { result ≢ Err NotWhole }
{
    let mut scratch = Scratch::new(alloc);
    let mut reader = Reader::new(text, &mut scratch)?;
    let mut spare = Vec::new(alloc);
    let tree = read(alloc, &mut reader, &mut spare, MAX_DEPTH)?;
    if reader.next().is_some() {
        return Err(ReadError::NotJson);
    }
    Ok(tree)
}

// A value, none where a number of it isn't whole; `depth` levels may begin in it.
#[cycle(read)]
fn read(
    alloc: Global,
    reader: &mut Reader<'_>,
    spare: &mut Vec<Vec<Tree>>,
    depth: usize,
) -> Result<Option<Tree>, ReadError>
    ensures ok { IfOk result (λ t. converted value_read (json_value depth reader.old) ≡ Some (option_map data_of t, reader.new)) }
    ensures shorter { OnOk result (length reader.new < length reader.old) }
    ensures refused { result ≡ Err NotJson → converted value_read (json_value depth reader.old) ≡ None }
    ensures other { result ≢ Err NotWhole }
{
    let token = reader.next().ok_or(ReadError::NotJson)?;
    match token {
        Token::String(text) => Ok(Some(Tree::Text(Text::from_str(alloc, text)?))),
        Token::Number(text) => Ok(number(text)?),
        Token::Bool(b) => Ok(Some(Tree::Truth(b))),
        Token::Null => Ok(Some(Tree::Null)),
        Token::EndObject | Token::EndArray | Token::Key(_) | Token::Bad => Err(ReadError::NotJson),
        Token::BeginArray => {
            if depth == 0 {
                return Err(ReadError::NotJson);
            }
            let found = read_items(alloc, reader, spare, depth - 1)?;
            list(alloc, spare, found)
        }
        Token::BeginObject => {
            if depth == 0 {
                return Err(ReadError::NotJson);
            }
            object(alloc, read_members(alloc, reader, spare, depth - 1)?)
        }
    }
}

#[cycle(read)]
fn read_items(
    alloc: Global,
    reader: &mut Reader<'_>,
    spare: &mut Vec<Vec<Tree>>,
    depth: usize,
) -> Result<Option<Vec<Tree>>, ReadError>
    ensures ok { IfOk result (λ v. converted items_read (items (json_value depth) (length reader.old) reader.old) ≡ Some (all_data v, reader.new)) }
    ensures shorter { OnOk result (length reader.new < length reader.old) }
    ensures refused { result ≡ Err NotJson → converted items_read (items (json_value depth) (length reader.old) reader.old) ≡ None }
    ensures other { result ≢ Err NotWhole }
{
    let mut found = Some(gathering(alloc, spare));
    'items: while !reader.take_end_array() {
        let item = read(alloc, reader, spare, depth)?;
        found = keep(found, item)?;
    }
    Ok(found)
}

#[cycle(read)]
fn read_members(
    alloc: Global,
    reader: &mut Reader<'_>,
    spare: &mut Vec<Vec<Tree>>,
    depth: usize,
) -> Result<Vec<FoundMember>, ReadError>
    ensures ok { IfOk result (λ v. converted members_read (members (json_value depth) (length reader.old) reader.old) ≡ Some (map found_of v.items, reader.new)) }
    ensures shorter { OnOk result (length reader.new < length reader.old) }
    ensures refused { result ≡ Err NotJson → converted members_read (members (json_value depth) (length reader.old) reader.old) ≡ None }
    ensures other { result ≢ Err NotWhole }
{
    let mut found = Vec::with_capacity(alloc, FEW_MEMBERS)?;
    'members: while let Some(name) = reader.next_key()? {
        let key = Text::from_str(alloc, name)?;
        let value = read(alloc, reader, spare, depth)?;
        found.push(FoundMember { key, value })?;
    }
    Ok(found)
}

// One more item, where all are whole.
fn keep(found: Option<Vec<Tree>>, item: Option<Tree>) -> Result<Option<Vec<Tree>>, ReadError>
    ensures ok { IfOk result (λ v. all_data v ≡ and_items (all_data found) (one_item (option_map data_of item))) }
    ensures err { IfErr result (λ e. e ≡ NoMemory) }
{
    match (found, item) {
        (Some(mut items), Some(item)) => {
            items.push(item)?;
            Ok(Some(items))
        }
        _ => Ok(None),
    }
}

fn list(
    alloc: Global,
    spare: &mut Vec<Vec<Tree>>,
    found: Option<Vec<Tree>>,
) -> Result<Option<Tree>, ReadError>
    ensures ok { IfOk result (λ t. option_map data_of t ≡ option_map list_data (all_data found)) }
    ensures err { IfErr result (λ e. e ≡ NoMemory) }
{
    match found {
        Some(items) => Ok(Some(Tree::List(TreeList::new(fitted(alloc, spare, items)?)))),
        None => Ok(None),
    }
}

// Each open list gathers its items in a vector that a list before left behind. Blocks in which lists grow, and which are cut or freed
// when a list ends, leave rests that no later list can use: a text of `[0,[0,..` would take half as much again.
fn gathering(alloc: Global, spare: &mut Vec<Vec<Tree>>) -> Vec<Tree>
    ensures { result.items ≡ [] }
{
    let mut items = spare.pop().unwrap_or(Vec::new(alloc));
    items.clear();
    items
}

// The same items in no more memory than they need. Of a long list's block the rest was never touched, so it takes none.
fn fitted(
    alloc: Global,
    spare: &mut Vec<Vec<Tree>>,
    items: Vec<Tree>,
) -> Result<Vec<Tree>, ReadError>
    ensures ok { IfOk result (λ v. v.items ≡ items.items) }
    ensures err { IfErr result (λ e. e ≡ NoMemory) }
{
    let mut items = items;
    if items.len() >= LONG {
        return Ok(items);
    }
    let mut exact = Vec::with_capacity(alloc, items.len())?;
    exact.append(&mut items)?;
    spare.push(items)?;
    Ok(exact)
}
