//! The command `slot`, over any opener, input, output and keeper.
ghost use Rattle.std.specs.Prelude.{◌≡◌, ◌≤◌, ◌<◌, ◌+◌, All, None, length, if◌then◌else◌};
ghost use Rattle.command_line.specs.Shown.{kept_shown};
ghost use Rattle.slot_run.specs.Runs.{AnswersSlot, RunsSlot};

use crate::text::{Answer, answer_to};
use account_core::account::Account;
use command_line::kept::KeptCommand;
use io_edge::opener::Opener;
use io_edge::sink::{Sink, put_all};
use io_edge::source::{InputError, Source, read_up_to};
use jmapd_run::kept_status::KeptStatus;
use jmapd_run::start::load_site;
use jmapd_run::status::Status;
use journal_keeper::keeper::Keeper;
use kept_run::accounts::open_accounts;
use kept_run::run::user_of;
use spec_core::limits::MAX_SIZE_REQUEST;
use spec_core::user::Grants;
use std::alloc::Global;

/// Reads what is asked for, looks for a slot in the room of an account of a site that goes on from what the keeper has of it, and writes what is
/// found, or why it is refused, with a line feed.
///
/// The configuration is loaded first, then the name of the user is looked for, then one account after the other is loaded and opened; the input and
/// the output aren't touched before. The input is read to its end, or to one byte past the most bytes of a request. Nothing is changed.
pub fn run_slot<O: Opener, S: Source, K: Sink, J: Keeper>(
    alloc: Global,
    asked: KeptCommand<'_>,
    opener: &mut O,
    input: &mut S,
    output: &mut K,
    keeper: &mut J,
) -> KeptStatus
    ensures runs { RunsSlot (kept_shown asked.entry) (O.shown opener.old) (O.shown opener.new)
        (record { source = S.shown input.old; sink = K.shown output.old; clock = None; keeper = J.shown keeper.old })
        (record { source = S.shown input.new; sink = K.shown output.new; clock = None; keeper = J.shown keeper.new }) result }
    ensures files { (O.shown opener.new).files ≡ (O.shown opener.old).files }
    ensures once { (O.shown opener.new).loads ≤ (O.shown opener.old).loads + 1 }
{
    let site = match load_site(alloc, opener, asked.config) {
        Ok(site) => site,
        Err(status) => return KeptStatus::Plain(status),
    };
    let Some(user) = user_of(&site, asked.user) else {
        return KeptStatus::Plain(Status::Usage);
    };
    match open_accounts(alloc, &site, keeper) {
        Ok(accounts) => {
            let grants = &site.user(user).grants;
            KeptStatus::Plain(answer_input(alloc, grants, &accounts, input, output))
        }
        Err(status) => status,
    }
}

// Reads what is asked for on these accounts, and writes the answer.
fn answer_input<S: Source, K: Sink>(
    alloc: Global,
    grants: &Grants,
    accounts: &[Account],
    input: &mut S,
    output: &mut K,
) -> Status
    requires { All (λ g. g.account < length accounts.now) grants.now }
    ensures { AnswersSlot grants.now accounts.now (S.shown input.old) (S.shown input.new) (K.shown output.old) (K.shown output.new) result }
{
    let bytes = match read_up_to(alloc, input, MAX_SIZE_REQUEST) {
        Ok(bytes) => bytes,
        Err(InputError::Failed) => return Status::ReadFault,
        Err(InputError::NoMemory) => return Status::NoMemory,
    };
    let Ok(answer) = answer_to(alloc, grants, accounts, &bytes) else {
        return Status::NoMemory;
    };
    match put_all(output, &answer.text) {
        Ok(()) => status_of(&answer),
        Err(_) => Status::WriteFault,
    }
}

fn status_of(answer: &Answer) -> Status
    ensures { result ≡ (if answer.now.is_refusal then Status.Refused else Status.Done) }
{
    if answer.is_refusal {
        Status::Refused
    } else {
        Status::Done
    }
}
