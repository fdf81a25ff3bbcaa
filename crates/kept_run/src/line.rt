//! One line: it is answered, what it added is kept, and the answer is written.
ghost use Rattle.std.specs.Prelude.{◌≡◌, ◌<◌, ◌+◌, ◌++◌, ◌∷◌, [], IfOk, length};
ghost use Rattle.spec_json.specs.Json.{text_of};
ghost use Rattle.spec_json.specs.TreeData.{data_of};
ghost use Rattle.kept_run.specs.Steps.{IsLineText, RunsLine};
ghost use Rattle.spec_history.specs.MostTurns.{most_turns};

use crate::texts::{counts_of, keep_new};
use account_desk::sole_desk::SoleDesk;
use io_edge::clock::Clock;
use io_edge::sink::{Sink, put_all};
use journal_keeper::keeper::{KeepError, Keeper};
use json_edge::write::tree_text;
use request_reply::reply::{RequestOutcome, reply_to};
use session_doc::Site;
use spec_batch::desk::DeskError;
use spec_time::moment::Moment;
use std::alloc::{AllocError, Global};

/// What came of a line.
#[derive(Clone, Copy)]
pub(crate) enum LineEnd {
    /// What it added was kept, and its response written.
    Written,
    /// What it added was kept, and its response wasn't written whole.
    WriteFault,
    /// What it added wasn't kept.
    KeepFault,
    /// Nothing was kept or written: memory was wanted.
    NoMemory,
}

/// Answers a line as a request of a user, keeps what it added to the accounts, and writes the response with a line feed.
///
/// The clock is read once. Memory is taken before anything is kept.
pub(crate) fn run_line<K: Sink, C: Clock, J: Keeper>(
    alloc: Global,
    site: &Site,
    user: u32,
    line: &[u8],
    desk: &mut SoleDesk,
    output: &mut K,
    clock: &mut C,
    keeper: &mut J,
) -> LineEnd
    requires user { user < length site.now.users }
    requires all { length desk.old.0 ≡ length site.now.accounts }
    requires may_call { desk.old.1 + 16 < most_turns }
    ensures { RunsLine site.now user line.now desk.old desk.new (C.moments clock.old) (C.moments clock.new) (K.shown output.old) (K.shown output.new) (J.shown keeper.old) (J.shown keeper.new) result }
{
    desk.mark();
    answer_line(alloc, site, user, line, desk, output, clock, keeper)
}

// The same over a desk that keeps copies of what comes.
fn answer_line<K: Sink, C: Clock, J: Keeper>(
    alloc: Global,
    site: &Site,
    user: u32,
    line: &[u8],
    desk: &mut SoleDesk,
    output: &mut K,
    clock: &mut C,
    keeper: &mut J,
) -> LineEnd
    requires user { user < length site.now.users }
    requires all { length desk.old.0 ≡ length site.now.accounts }
    requires may_call { desk.old.1 + 16 < most_turns }
    ensures { RunsLine site.now user line.now desk.old desk.new (C.moments clock.old) (C.moments clock.new) (K.shown output.old) (K.shown output.new) (J.shown keeper.old) (J.shown keeper.new) result }
{
    let moment = Moment::clamped(clock.now());
    let Ok(places) = counts_of(alloc, desk) else {
        return LineEnd::NoMemory;
    };
    let Ok(text) = line_text(alloc, site, user, line, desk, moment) else {
        return LineEnd::NoMemory;
    };
    desk.all_entries_are_its_own();
    match keep_new(alloc, site, desk, &places, keeper) {
        Ok(()) => {}
        Err(KeepError::Failed) => return LineEnd::KeepFault,
        Err(KeepError::NoMemory) => return LineEnd::NoMemory,
    }
    match put_all(output, &text) {
        Ok(()) => LineEnd::Written,
        Err(_) => LineEnd::WriteFault,
    }
}

// The response to a line, or the problem of one that is refused as a whole, with a line feed.
fn line_text(
    alloc: Global,
    site: &Site,
    user: u32,
    line: &[u8],
    desk: &mut SoleDesk,
    moment: Moment,
) -> Result<Vec<u8>, AllocError>
    requires user { user < length site.now.users }
    requires all { length desk.old.0 ≡ length site.now.accounts }
    requires may_call { desk.old.1 + 16 < most_turns }
    ensures { IfOk result (λ text. IsLineText site.now user line.now moment desk.old desk.new text.items) }
{
    let mut fronts = Vec::new(alloc);
    match reply_to(alloc, line, site.user(user), desk, moment, &mut fronts) {
        Ok(reply) => text_of(alloc, &reply),
        // The desk may make as many calls as a request has.
        Err(DeskError::PassSpent) => unreachable!(),
        Err(DeskError::NoMemory) => Err(AllocError),
    }
}

// The text of a reply, with a line feed.
fn text_of(alloc: Global, reply: &RequestOutcome) -> Result<Vec<u8>, AllocError>
    ensures { IfOk result (λ text. text.items ≡ text_of (data_of reply.now.tree) ++ 10 ∷ []) }
{
    let mut text = tree_text(alloc, &reply.tree)?;
    text.push(b'\n')?;
    Ok(text)
}
