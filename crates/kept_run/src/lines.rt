//! The lines of an input, one after the other.
ghost use Rattle.std.specs.Prelude.{◌≡◌, ◌≢◌, ◌<◌, length};
ghost use Rattle.kept_run.specs.Runs.{RunsLines};
ghost use Rattle.kept_run.specs.Steps.{BehindHow, IsDone, StoppedWith};
ghost use Rattle.line_edge.specs.Reading.{TookMore};

use crate::line::{LineEnd, run_line};
use crate::status::KeptDone;
use account_desk::sole_desk::SoleDesk;
use io_edge::clock::Clock;
use io_edge::sink::Sink;
use io_edge::source::Source;
use jmapd_run::kept_status::KeptStatus;
use jmapd_run::status::Status;
use journal_keeper::keeper::Keeper;
use line_edge::next::{NextLine, is_followed, next_line};
use line_edge::rest::{NoMore, Rest};
use session_doc::Site;
use spec_core::limits::MAX_SIZE_REQUEST;
use std::alloc::Global;

/// The most lines that are answered.
pub const MAX_LINES: u64 = 10_000;

/// Runs the lines of an input over accounts, in order, each as a request of a user.
///
/// What a line adds is kept before its response is written. Bytes behind the last line that is answered may have been taken; they are lost.
pub(crate) fn run_lines<S: Source, K: Sink, C: Clock, J: Keeper>(
    alloc: Global,
    site: &Site,
    user: u32,
    desk: SoleDesk,
    input: &mut S,
    output: &mut K,
    clock: &mut C,
    keeper: &mut J,
) -> KeptDone
    requires user { user < length site.now.users }
    requires all { length desk.0 ≡ length site.now.accounts }
    requires fresh { desk.1 ≡ 0 }
    ensures { RunsLines site.now user desk
        (record { source = S.shown input.old; sink = K.shown output.old; clock = C.moments clock.old; keeper = J.shown keeper.old })
        (record { source = S.shown input.new; sink = K.shown output.new; clock = C.moments clock.new; keeper = J.shown keeper.new }) result }
{
    let mut desk = desk;
    let mut rest = Rest::new(alloc);
    for count in 0..MAX_LINES {
        match next_line(alloc, input, &mut rest, MAX_SIZE_REQUEST) {
            NextLine::Line(line) => {
                match run_line(alloc, site, user, &line, &mut desk, output, clock, keeper) {
                    LineEnd::Written => {}
                    end => return stopped(end, count),
                }
            }
            NextLine::Last(line) => {
                match run_line(alloc, site, user, &line, &mut desk, output, clock, keeper) {
                    LineEnd::Written => return ended(Status::Done, count + 1),
                    end => return stopped(end, count),
                }
            }
            NextLine::End => return ended(Status::Done, count),
            NextLine::TooLong => return ended(Status::Cut, count),
            NextLine::ReadFault => return ended(Status::ReadFault, count),
            NextLine::NoMemory => return ended(Status::NoMemory, count),
        }
    }
    ended(status_behind(input, &mut rest), MAX_LINES)
}

// How a run ends behind the last line that may be answered.
fn status_behind<S: Source>(input: &mut S, rest: &mut Rest) -> Status
    ensures took { TookMore (S.shown input.old) (S.shown input.new) rest.old rest.new }
    ensures how { BehindHow (S.shown input.old) (S.shown input.new) rest.new result }
{
    match is_followed(input, rest) {
        Ok(true) => Status::Cut,
        Ok(false) => Status::Done,
        Err(NoMore::Failed) => Status::ReadFault,
        Err(_) => Status::NoMemory,
    }
}

// A line wasn't answered behind so many that were.
fn stopped(end: LineEnd, count: u64) -> KeptDone
    requires few { count < MAX_LINES }
    requires stopped { end ≢ LineEnd.Written }
    ensures { StoppedWith end count result }
{
    match end {
        LineEnd::WriteFault => done(KeptStatus::Plain(Status::WriteFault), count + 1, count),
        LineEnd::KeepFault => done(KeptStatus::KeepFault, count, count),
        LineEnd::NoMemory => ended(Status::NoMemory, count),
        LineEnd::Written => unreachable!(),
    }
}

// All lines that were kept were answered.
fn ended(status: Status, count: u64) -> KeptDone
    ensures { IsDone (KeptStatus.Plain status) count count result }
{
    done(KeptStatus::Plain(status), count, count)
}

fn done(status: KeptStatus, kept: u64, written: u64) -> KeptDone
    ensures { IsDone status kept written result }
{
    KeptDone {
        status,
        kept,
        written,
    }
}
