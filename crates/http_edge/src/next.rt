//! The next message of a source.
ghost use Rattle.std.specs.Prelude.{◌≡◌, ◌+◌, ◌≤◌, ◌<◌, length, IfOk, OnOk, IfErr};
ghost use Rattle.spec_http.specs.Heads.{head_end, unended};
ghost use Rattle.http_edge.specs.Reading.{AskedWhile, GivesNext, StopCause, Took, end_shown, ended_with};

use crate::head::{HeadError, read_head};
use crate::held::{HeldBytes, Stop};
use crate::message::{Message, take_message};
use crate::search::{Search, SearchState, go_on};
use io_edge::source::Source;
use spec_core::limits::MAX_SIZE_REQUEST;
use spec_http::limits::{MAX_HEAD, PIECE};
use std::alloc::Global;

/// What a source gives next.
#[derive(Drop)]
pub enum Next {
    /// A whole message.
    Message(Message),
    /// The input ended between messages.
    End,
    /// The input ended inside a message.
    Truncated,
    /// A head that is refused with this status.
    BadHead(u16),
    /// The source failed.
    ReadFault,
    /// Out of memory.
    NoMemory,
}

/// Gives the next message of the bytes that `kept` holds and those that the source gives behind them.
///
/// `kept` has the bytes behind the message then, or all of them where there is none. The source is asked only while the bytes begin neither
/// with a whole message nor with a head that is refused. Takes memory for the message and for the bytes that were taken and not used; nothing
/// that was taken is lost where it runs out.
pub fn next_message<S: Source>(alloc: Global, source: &mut S, kept: &mut HeldBytes) -> Next
    ensures { GivesNext (S.shown source.old) (S.shown source.new) kept.old kept.new result }
{
    let mut piece = [0; PIECE];
    let mut looked = 0;
    let size = match find_head(source, kept, &mut piece, &mut looked) {
        Ok(HeadEnd::At(size)) => size,
        Ok(HeadEnd::TooLong) => return Next::BadHead(431),
        Err(Stop::Ended) => return ended(kept),
        Err(Stop::Failed) => return Next::ReadFault,
        Err(Stop::NoMemory) => return Next::NoMemory,
    };
    let head = match read_head(alloc, &kept.as_slice()[..size]) {
        Ok(head) => head,
        Err(HeadError::Refused(status)) => return Next::BadHead(status),
        Err(HeadError::NoMemory) => return Next::NoMemory,
    };
    match take_until(source, kept, &mut piece, size + head.body) {
        Ok(()) => {}
        Err(Stop::Ended) => return Next::Truncated,
        Err(Stop::Failed) => return Next::ReadFault,
        Err(Stop::NoMemory) => return Next::NoMemory,
    }
    match take_message(alloc, kept, size, head) {
        Ok(message) => Next::Message(message),
        Err(_) => Next::NoMemory,
    }
}

/// Where a head ends.
#[derive(Clone, Copy)]
enum HeadEnd {
    /// Behind so many bytes.
    At(usize),
    /// Not in the first `MAX_HEAD` bytes.
    TooLong,
}

// Takes bytes until it is known where the head that they begin with ends. `looked` counts the bytes that are looked at: none twice,
// however few come at once.
#[tactic(auto, using(crate::proofs::Taking::took_none, crate::proofs::Taking::took_more, crate::proofs::Taking::stop_earlier, crate::proofs::Taking::asked_for))]
fn find_head<S: Source>(
    source: &mut S,
    kept: &mut HeldBytes,
    piece: &mut [u8],
    looked: &mut usize,
) -> Result<HeadEnd, Stop>
    requires piece { length piece.old ≡ PIECE }
    requires countable { looked.old + MAX_HEAD ≤ usize.MAX }
    ensures took { Took (S.shown source.old) (S.shown source.new) kept.old kept.new }
    ensures asked { AskedWhile (λ bytes. head_end bytes ≡ unended) PIECE (S.shown source.old) (S.shown source.new) kept.old kept.new }
    ensures end { IfOk result (λ end. head_end kept.new ≡ end_shown end) }
    ensures once { (looked.old ≤ looked.new) × (looked.new ≤ looked.old + length kept.new) }
    ensures stop { IfErr result (λ stop. (head_end kept.new ≡ unended) × StopCause (S.shown source.old) (S.shown source.new) stop) }
{
    let mut searched = 0;
    let mut state = SearchState::Within;
    loop {
        let prefix = kept.as_slice().len().min(MAX_HEAD);
        match go_on(&kept.as_slice()[..prefix], searched, state, looked) {
            Search::Ended(size) => return Ok(HeadEnd::At(size)),
            Search::Open(next) => state = next,
        }
        if prefix == MAX_HEAD {
            return Ok(HeadEnd::TooLong);
        }
        searched = prefix;
        kept.take_more(source, piece)?;
    }
}

// Takes bytes until there are so many.
#[tactic(auto, using(crate::proofs::Taking::took_none, crate::proofs::Taking::took_more, crate::proofs::Taking::stop_earlier, crate::proofs::Taking::asked_for))]
fn take_until<S: Source>(
    source: &mut S,
    kept: &mut HeldBytes,
    piece: &mut [u8],
    wanted: usize,
) -> Result<(), Stop>
    requires piece { length piece.old ≡ PIECE }
    requires most { wanted ≤ MAX_HEAD + MAX_SIZE_REQUEST }
    ensures took { Took (S.shown source.old) (S.shown source.new) kept.old kept.new }
    ensures asked { AskedWhile (λ bytes. length bytes < wanted) PIECE (S.shown source.old) (S.shown source.new) kept.old kept.new }
    ensures there { OnOk result (wanted ≤ length kept.new) }
    ensures stop { IfErr result (λ stop. (length kept.new < wanted) × StopCause (S.shown source.old) (S.shown source.new) stop) }
{
    while kept.as_slice().len() < wanted {
        kept.take_more(source, piece)?;
    }
    Ok(())
}

// The input ended before the end of a head.
fn ended(kept: &HeldBytes) -> Next
    ensures { result ≡ ended_with kept.now }
{
    if kept.as_slice().is_empty() {
        Next::End
    } else {
        Next::Truncated
    }
}
