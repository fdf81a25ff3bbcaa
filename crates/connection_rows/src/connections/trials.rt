//! The ways in which a case is tried.
ghost use Rattle.std.specs.Prelude.{◌≡◌, count_by, nat_le};

use crate::connections::case::Case;
use crate::connections::runs::{RunOutcome, Way, outcome_of};
use row_table::files::Files;
use std::alloc::{AllocError, Global};

/// The most bytes of an input that is cut after each, and whose takes and gives fail one after the other.
const MAX_FAILING: usize = 1500;

/// What a run is to come to.
#[derive(Drop)]
struct Wanted<'a> {
    status: &'a str,
    /// How many responses are written whole.
    responses: usize,
}

/// What first came otherwise than wanted, in one piece, in pieces of one byte and of seven bytes, and, of a connection, cut after each byte, with one `take`
/// after the other failing, and one `give` after the other.
pub fn other_than_wanted(
    alloc: Global,
    case: &Case,
    files: &Files,
) -> Result<Option<String>, AllocError> {
    let input = case.input(alloc)?;
    let other = other_in_pieces(alloc, case, files, &input)?;
    if other.is_some() || !case.is_connection() || input.len() > MAX_FAILING {
        return Ok(other);
    }
    let other = other_at_cuts(alloc, case, files, &input)?;
    if other.is_some() {
        return Ok(other);
    }
    match other_at_takes(alloc, case, files, &input)? {
        Some(other) => Ok(Some(other)),
        None => other_at_gives(alloc, case, files, &input),
    }
}

/// The input is given in one piece, and in small pieces: the row is answered.
fn other_in_pieces(
    alloc: Global,
    case: &Case,
    files: &Files,
    input: &[u8],
) -> Result<Option<String>, AllocError> {
    let ways = [
        Way::in_pieces(alloc, usize::MAX),
        Way::in_pieces(alloc, 1),
        Way::in_pieces(alloc, 7),
    ];
    for way in Vec::from_array(alloc, ways)? {
        let outcome = outcome_of(alloc, case, files, input, way)?;
        let other = other_than(alloc, case, &outcome, &undisturbed(case))?;
        if other.is_some() {
            return Ok(other);
        }
    }
    Ok(None)
}

/// What the row has.
fn undisturbed(case: &Case) -> Wanted<'_> {
    Wanted {
        status: case.status.as_str(),
        responses: case.responses.len(),
    }
}

/// What a run came to, where it isn't what is wanted.
fn other_than(
    alloc: Global,
    case: &Case,
    outcome: &RunOutcome,
    wanted: &Wanted<'_>,
) -> Result<Option<String>, AllocError> {
    let bytes = case.first_responses(alloc, wanted.responses)?;
    if outcome.status.as_str() == wanted.status
        && outcome.output.bytes() == Some(bytes.as_slice())
    {
        return Ok(None);
    }
    let written = outcome.output.bytes().unwrap_or_default();
    let written = String::from_utf8_lossy(alloc, written)?;
    let status = &outcome.status;
    Ok(Some(format!(in alloc; "{status}, {written:?}")?))
}

/// The input is cut after each byte in turn: the messages before are answered, and nothing else.
fn other_at_cuts(
    alloc: Global,
    case: &Case,
    files: &Files,
    input: &[u8],
) -> Result<Option<String>, AllocError> {
    let ends = ends_of(alloc, &case.messages)?;
    let closes = is_closing(case);
    for left in 0..input.len() {
        let way = Way::in_pieces(alloc, usize::MAX);
        let outcome = outcome_of(alloc, case, files, &input[..left], way)?;
        let whole = whole_within(&ends, left).min(case.responses.len());
        let is_over = closes && whole == case.responses.len();
        let wanted = Wanted {
            status: if is_over {
                case.status.as_str()
            } else if left == 0 || ends.contains(&left) {
                "Done"
            } else {
                "Cut"
            },
            responses: whole,
        };
        if let Some(other) = other_than(alloc, case, &outcome, &wanted)? {
            return Ok(Some(format!(in alloc; "cut after {left} bytes, {other}")?));
        }
    }
    Ok(None)
}

/// Each take fails in turn, and the input is given in pieces of one byte: the messages before that byte are answered, and nothing else.
fn other_at_takes(
    alloc: Global,
    case: &Case,
    files: &Files,
    input: &[u8],
) -> Result<Option<String>, AllocError> {
    let ends = ends_of(alloc, &case.messages)?;
    let closes = is_closing(case);
    for taken in 0..=input.len() {
        let way = Way::with_failing_take(alloc, taken as u64)?;
        let outcome = outcome_of(alloc, case, files, input, way)?;
        let whole = whole_within(&ends, taken).min(case.responses.len());
        let is_over = closes && whole == case.responses.len();
        let wanted = Wanted {
            status: if is_over {
                case.status.as_str()
            } else {
                "ReadFault"
            },
            responses: whole,
        };
        if let Some(other) = other_than(alloc, case, &outcome, &wanted)? {
            return Ok(Some(format!(in alloc; "with take {taken} failing, {other}")?));
        }
    }
    Ok(None)
}

/// Each give fails in turn, and the input is given in pieces of one byte: the responses before it are written, and nothing else, and the source gave no
/// byte beyond the message that is answered. So a client that waits for a response before it goes on gets it.
fn other_at_gives(
    alloc: Global,
    case: &Case,
    files: &Files,
    input: &[u8],
) -> Result<Option<String>, AllocError> {
    let ends = ends_of(alloc, &case.messages)?;
    for given in 0..case.responses.len() {
        let way = Way::with_failing_give(alloc, given as u64)?;
        let outcome = outcome_of(alloc, case, files, input, way)?;
        let wanted = Wanted {
            status: "WriteFault",
            responses: given,
        };
        if let Some(other) = other_than(alloc, case, &outcome, &wanted)? {
            return Ok(Some(format!(in alloc; "with give {given} failing, {other}")?));
        }
        let taken = outcome.given;
        if is_beyond(&ends, given, taken) {
            return Ok(Some(format!(in alloc; "at give {given} the source gave {taken} bytes")?));
        }
    }
    Ok(None)
}

/// Where each message ends in the input.
fn ends_of(alloc: Global, messages: &[Vec<u8>]) -> Result<Vec<usize>, AllocError> {
    let mut ends = Vec::new(alloc);
    let mut end = 0usize;
    for message in messages {
        end = end.saturating_add(message.len());
        ends.push(end)?;
    }
    Ok(ends)
}

/// Whether so many bytes go beyond the message of this place.
fn is_beyond(ends: &[usize], message: usize, taken: usize) -> bool {
    match ends.get(message) {
        Some(end) => taken > *end,
        None => false,
    }
}

/// How many messages end within the first so many bytes.
fn whole_within(ends: &[usize], taken: usize) -> usize
    ensures { result ≡ count_by (λ end. nat_le end taken) ends.now }
{
    ends.iter().filter(|end| **end <= taken).count()
}

/// Whether the connection ends behind the last response.
fn is_closing(case: &Case) -> bool {
    match case.responses.last() {
        Some(response) => {
            let mut lines = response.as_slice().split(|byte| *byte == b'\n');
            lines.any(|line| line == b"Connection: close\r".as_slice())
        }
        None => false,
    }
}
