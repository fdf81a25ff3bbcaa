//! The line that tells of a request.

use crate::request::AnsweredRequest;
use spec_json::tree::Tree;
use spec_time::moment::Moment;
use std::alloc::{AllocError, Global};
use time_text::utc_text;

/// What stands where there is nothing to tell.
const NOTHING: &str = "-";

/// The line that tells of a request which was answered at a moment, so many microseconds after it had come: the moment, its user, the status, what its methods answered, the bytes of its
/// content and of its response, and the microseconds. Takes memory for it.
pub(crate) fn request_line(
    alloc: Global,
    moment: Moment,
    request: &AnsweredRequest<'_>,
    microseconds: u64,
) -> Result<String, AllocError> {
    let time = utc_text(alloc, moment.seconds())?;
    let user = user_word(alloc, request.user)?;
    let names = names_word(alloc, request.reply)?;
    format!(in alloc;
        "{} {user} {} {names} {} {} {microseconds}",
        time.as_str(),
        request.status,
        request.taken,
        request.given
    )
}

// The name of a user as one word: a space or a control character in it is shown as `_`.
fn user_word(alloc: Global, name: Option<&str>) -> Result<String, AllocError> {
    let mut word = String::new(alloc);
    for letter in name.unwrap_or(NOTHING).chars() {
        let is_apart = letter.is_whitespace() || letter.is_control();
        word.push(if is_apart { '_' } else { letter })?;
    }
    Ok(word)
}

// The names of the method responses as one word, with the type of each error. They are the program's own, and no client's.
fn names_word(alloc: Global, reply: Option<&Tree>) -> Result<String, AllocError> {
    let mut word = String::new(alloc);
    for response in responses_in(reply) {
        if !word.is_empty() {
            word.push(',')?;
        }
        push_name(&mut word, response)?;
    }
    if word.is_empty() {
        word.push_str(NOTHING)?;
    }
    Ok(word)
}

// The method responses of a response object.
fn responses_in<'a>(reply: Option<&'a Tree>) -> &'a [Tree] {
    match reply {
        Some(tree) => tree.list_at("methodResponses").unwrap_or_default(),
        None => &[],
    }
}

// The name of a method response (RFC 8620 section 3.2), behind which the type of an error stands (section 3.6.2).
fn push_name(word: &mut String, response: &Tree) -> Result<(), AllocError> {
    let parts = response.as_list().unwrap_or_default();
    if let Some(name) = parts.first().and_then(|name| name.as_text()) {
        word.push_str(name.as_str())?;
        if let Some(kind) = error_type(name.as_str(), parts) {
            word.push(':')?;
            word.push_str(kind)?;
        }
    }
    Ok(())
}

fn error_type<'a>(name: &str, parts: &'a [Tree]) -> Option<&'a str> {
    if name != "error" {
        return None;
    }
    Some(parts.get(1)?.text_at("type")?.as_str())
}
