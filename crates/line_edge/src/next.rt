//! The next line of a source.
ghost use Rattle.line_edge.specs.Reading.{EndedWith, FollowedHow, GivesLine, TookMore};

use crate::rest::{Moved, NoMore, Rest};
use io_edge::source::Source;
use std::alloc::Global;

/// What a source gives next.
#[derive(Drop)]
pub enum NextLine {
    /// A line, without the line feed behind it.
    Line(Vec<u8>),
    /// The bytes behind the last line feed, where there are some and the input ended.
    Last(Vec<u8>),
    /// The input ended behind a line feed, or had no bytes.
    End,
    /// A line has more bytes than it may have.
    TooLong,
    /// The source failed inside a line, or before it.
    ReadFault,
    /// Out of memory.
    NoMemory,
}

/// Gives the next line of the bytes that are left and those that the source gives behind them: at most `most` bytes, and a line feed, which is dropped.
///
/// `rest` has the bytes behind the line then. The source is asked only while the bytes have no line feed. Takes memory for the line and for a piece.
pub fn next_line<S: Source>(alloc: Global, source: &mut S, rest: &mut Rest, most: usize) -> NextLine
    ensures { GivesLine most (S.shown source.old) (S.shown source.new) rest.old rest.new result }
{
    let mut line = Vec::new(alloc);
    loop {
        match rest.fill(source) {
            Ok(()) => {}
            Err(NoMore::Ended) => return ended(line),
            Err(NoMore::Failed) => return NextLine::ReadFault,
            Err(NoMore::NoMemory) => return NextLine::NoMemory,
        }
        match rest.move_line(&mut line, most) {
            Moved::Line => return NextLine::Line(line),
            Moved::Part => {}
            Moved::TooLong => return NextLine::TooLong,
            Moved::NoMemory => return NextLine::NoMemory,
        }
    }
}

fn ended(line: Vec<u8>) -> NextLine
    ensures { EndedWith line.items result }
{
    if line.is_empty() {
        NextLine::End
    } else {
        NextLine::Last(line)
    }
}

/// Whether more bytes follow, or why that isn't known. Takes memory for a piece, and no byte is lost.
pub fn is_followed<S: Source>(source: &mut S, rest: &mut Rest) -> Result<bool, NoMore>
    ensures took { TookMore (S.shown source.old) (S.shown source.new) rest.old rest.new }
    ensures how { FollowedHow (S.shown source.old) (S.shown source.new) rest.new result }
{
    match rest.fill(source) {
        Ok(()) => Ok(true),
        Err(NoMore::Ended) => Ok(false),
        Err(stop) => Err(stop),
    }
}
