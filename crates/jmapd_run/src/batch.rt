//! The command `batch`: one request and its answer.
ghost use Rattle.std.specs.Prelude.{◌≡◌, ◌<◌, ◌++◌, ◌∷◌, [], IfOk, length, if◌then◌else◌};
ghost use Rattle.jmapd_run.specs.Headline.{IsAnswer};
ghost use Rattle.spec_json.specs.Json.{text_of};
ghost use Rattle.spec_json.specs.TreeData.{data_of};
ghost use Rattle.jmapd_run.specs.Runs.{RunsBatch};

use crate::status::Status;
use account_desk::sole_desk::SoleDesk;
use io_edge::clock::Clock;
use io_edge::sink::{Sink, put_all};
use io_edge::source::{InputError, Source, read_up_to};
use json_edge::write::tree_text;
use request_reply::reply::{RequestOutcome, reply_to};
use session_doc::Site;
use spec_batch::desk::DeskError;
use spec_core::limits::MAX_SIZE_REQUEST;
use spec_time::moment::Moment;
use std::alloc::{AllocError, Global};

/// A text that answers a request.
#[derive(Drop)]
pub(crate) struct Answer {
    text: Vec<u8>,
    is_refusal: bool,
}

/// Reads a request, answers it for a user on fresh accounts, and writes the answer.
///
/// The input is read to its end, or to one byte past the most bytes of a request, and the clock is read once.
pub(crate) fn run_batch<S: Source, K: Sink, C: Clock>(
    alloc: Global,
    site: &Site,
    user: u32,
    input: &mut S,
    output: &mut K,
    clock: &mut C,
) -> Status
    requires { user < length site.now.users }
    ensures { RunsBatch (record { input = S.shown input.old; output = K.shown output.old; clock = C.moments clock.old })
        (record { input = S.shown input.new; output = K.shown output.new; clock = C.moments clock.new }) site.now user result }
{
    let bytes = match read_up_to(alloc, input, MAX_SIZE_REQUEST) {
        Ok(bytes) => bytes,
        Err(InputError::Failed) => return Status::ReadFault,
        Err(InputError::NoMemory) => return Status::NoMemory,
    };
    let moment = Moment::clamped(clock.now());
    let Ok(answer) = answer_to(alloc, site, user, &bytes, moment) else {
        return Status::NoMemory;
    };
    match put_all(output, &answer.text) {
        Ok(()) => status_of(&answer),
        Err(_) => Status::WriteFault,
    }
}

fn status_of(answer: &Answer) -> Status
    ensures { result ≡ (if answer.now.is_refusal then Status.Refused else Status.Done) }
{
    if answer.is_refusal {
        Status::Refused
    } else {
        Status::Done
    }
}

// The answer to a request on fresh accounts, at a moment.
fn answer_to(
    alloc: Global,
    site: &Site,
    user: u32,
    bytes: &[u8],
    moment: Moment,
) -> Result<Answer, AllocError>
    requires { user < length site.now.users }
    ensures { IfOk result (λ a. IsAnswer site.now user moment bytes.now a.is_refusal a.text.items) }
{
    let mut desk = SoleDesk::open(alloc, site)?;
    let mut fronts = Vec::new(alloc);
    match reply_to(
        alloc,
        bytes,
        site.user(user),
        &mut desk,
        moment,
        &mut fronts,
    ) {
        Ok(reply) => {
            desk.all_entries_are_its_own();
            answer_of(alloc, &reply)
        }
        // A desk that begins here makes at most 16 calls.
        Err(DeskError::PassSpent) => unreachable!(),
        Err(DeskError::NoMemory) => Err(AllocError),
    }
}

// The text of a reply, with a line feed.
fn answer_of(alloc: Global, reply: &RequestOutcome) -> Result<Answer, AllocError>
    ensures text { IfOk result (λ a. a.text.items ≡ text_of (data_of reply.now.tree) ++ 10 ∷ []) }
    ensures refusal { IfOk result (λ a. a.is_refusal ≡ reply.now.is_refusal) }
{
    let mut text = tree_text(alloc, &reply.tree)?;
    text.push(b'\n')?;
    Ok(Answer {
        text,
        is_refusal: reply.is_refusal,
    })
}
