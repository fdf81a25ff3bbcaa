//! The command `kept`, over any opener, input, output, clock and keeper.
ghost use Rattle.std.specs.Prelude.{◌≡◌, ◌≤◌, ◌<◌, ◌+◌, ℕ, List, IfNone, IfSome, None, Some, length, option_map};
ghost use Rattle.command_line.specs.Shown.{kept_shown};
ghost use Rattle.jmapd_run.specs.Starts.{IsUser};
ghost use Rattle.kept_run.specs.Runs.{RunsKept};
ghost use Rattle.kept_run.specs.Steps.{IsDone};
ghost use Rattle.spec_site.specs.Configuration.{user_named};

use crate::accounts::open_accounts;
use crate::lines::run_lines;
use crate::status::KeptDone;
use account_desk::sole_desk::SoleDesk;
use command_line::kept::KeptCommand;
use io_edge::clock::Clock;
use io_edge::opener::Opener;
use io_edge::sink::Sink;
use io_edge::source::Source;
use jmapd_run::kept_status::KeptStatus;
use jmapd_run::start::load_site;
use jmapd_run::status::Status;
use journal_keeper::keeper::Keeper;
use session_doc::Site;
use std::alloc::Global;

/// Runs the lines of an input as requests of a user on the accounts of a site, which go on from what the keeper has of them.
///
/// What a line adds is kept before its response is written with a line feed. The configuration is loaded first, then the name of the user is
/// looked for, then one account after the other is loaded and opened; the input, the output and the clock aren't touched before. Each line is
/// at most 10,000,000 bytes, and at most 10,000 lines are answered.
pub fn run_kept<O: Opener, S: Source, K: Sink, C: Clock, J: Keeper>(
    alloc: Global,
    asked: KeptCommand<'_>,
    opener: &mut O,
    input: &mut S,
    output: &mut K,
    clock: &mut C,
    keeper: &mut J,
) -> KeptDone
    ensures runs { RunsKept (kept_shown asked.entry) (O.shown opener.old) (O.shown opener.new)
        (record { source = S.shown input.old; sink = K.shown output.old; clock = C.moments clock.old; keeper = J.shown keeper.old })
        (record { source = S.shown input.new; sink = K.shown output.new; clock = C.moments clock.new; keeper = J.shown keeper.new }) result }
    ensures files { (O.shown opener.new).files ≡ (O.shown opener.old).files }
    ensures once { (O.shown opener.new).loads ≤ (O.shown opener.old).loads + 1 }
{
    let site = match load_site(alloc, opener, asked.config) {
        Ok(site) => site,
        Err(status) => return not_begun(KeptStatus::Plain(status)),
    };
    let Some(user) = user_of(&site, asked.user) else {
        return not_begun(KeptStatus::Plain(Status::Usage));
    };
    match open_accounts(alloc, &site, keeper) {
        Ok(accounts) => {
            let desk = SoleDesk::with(accounts);
            run_lines(alloc, &site, user, desk, input, output, clock, keeper)
        }
        Err(status) => not_begun(status),
    }
}

/// The user of a name, or the first. Takes no memory.
pub fn user_of(site: &Site, name: Option<&str>) -> Option<u32>
    requires { 0 < length site.now.users }
    ensures user { IfSome result (IsUser site.now (option_map (λ s. s.now) name.entry)) }
    ensures none { IfNone result ((s : List ℕ) × (option_map (λ t. t.now) name.entry ≡ Some s) × (user_named site.now s ≡ None)) }
    ensures there { IfSome result (λ n. n < length site.now.users) }
{
    match name {
        Some(name) => site.user_named(name),
        None => Some(0),
    }
}

fn not_begun(status: KeptStatus) -> KeptDone
    ensures { IsDone status 0 0 result }
{
    KeptDone {
        status,
        kept: 0,
        written: 0,
    }
}
