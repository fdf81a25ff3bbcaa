//! Rows of streams of events.

use event_source::query::{CloseAfter, StreamQuery, StreamQueryError, read_query};
use event_source::stream::EventStream;
use event_source::switch_text::switch_text;
use json_edge::write::tree_text;
use row_table::answers::text_of;
use row_table::line::tree_in;
use spec_json::text::Text;
use spec_json::tree::{Tree, TreeList};
use std::alloc::{AllocError, Global};

/// What comes of a `query`, where a question can be read: what it asks for, or why it is refused; or with `texts`, what is written on its stream.
pub fn came(alloc: Global, asked: &str) -> Result<Option<String>, AllocError> {
    let Some(asked) = tree_in(alloc, asked)? else {
        return Ok(None);
    };
    let Some(query) = asked.text_at("query") else {
        return Ok(None);
    };
    match read_query(alloc, query.as_str().as_bytes()) {
        Ok(query) => match asked.list_at("texts") {
            Some(texts) => Ok(Some(written(alloc, &asked, query, texts)?)),
            None => Ok(Some(words_of(alloc, query)?)),
        },
        Err(StreamQueryError::Refused(refusal)) => {
            let name = refusal.parameter.name();
            let words = refusal.flaw.words();
            Ok(Some(format!(in alloc; "{name} {words}")?))
        }
        Err(StreamQueryError::NoMemory) => Err(AllocError),
    }
}

/// What a query asks for: the switch of its types, and the rest.
fn words_of(alloc: Global, query: StreamQuery) -> Result<String, AllocError> {
    let switch = switch_text(query.types);
    let close_after = match query.close_after {
        CloseAfter::State => "state",
        CloseAfter::Never => "no",
    };
    match query.ping {
        Some(interval) => {
            format!(in alloc; "{switch} closeafter {close_after}, ping {interval}")
        }
        None => format!(in alloc; "{switch} closeafter {close_after}, no ping"),
    }
}

/// What is written for each text, and then behind each silence of `silences` seconds, with null where nothing is, and whether the stream has ended.
fn written(
    alloc: Global,
    asked: &Tree,
    query: StreamQuery,
    texts: &[Tree],
) -> Result<String, AllocError> {
    let last = match asked.text_at("last") {
        Some(last) => Some(last.copy()?),
        None => None,
    };
    let mut stream = EventStream::new(alloc, query, last);
    let mut items = Vec::new(alloc);
    for text in texts {
        let text = sent(alloc, text)?;
        items.push(maybe(stream.tell(alloc, text.as_str())?)?)?;
    }
    for silence in asked.list_at("silences").unwrap_or(&[]) {
        let seconds = match silence.as_whole() {
            Some(seconds) => u64::try_from(seconds.get()).unwrap_or(0),
            None => 0,
        };
        items.push(maybe(stream.due_after(alloc, seconds)?)?)?;
    }
    items.push(Tree::Truth(stream.has_ended))?;
    text_of(alloc, &Tree::List(TreeList::new(items)))
}

/// The text that is sent: a text, or the compact text of anything else.
fn sent(alloc: Global, text: &Tree) -> Result<Text, AllocError> {
    match text {
        Tree::Text(text) => text.copy(),
        other => {
            let bytes = tree_text(alloc, other)?;
            Text::from_str(alloc, str::from_utf8(&bytes).unwrap_or(""))
        }
    }
}

/// What was written, or null.
fn maybe(written: Option<String>) -> Result<Tree, AllocError> {
    match written {
        Some(text) => Ok(Tree::Text(Text::from_string(text)?)),
        None => Ok(Tree::Null),
    }
}
